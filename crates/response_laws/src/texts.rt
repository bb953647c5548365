//! A law of the texts of responses. This function does nothing: it states a law.
ghost use Rattle.std.specs.Prelude.{◌≡◌, IsUtf8, Some};
ghost use Rattle.tailcfg.specs.declared.response.Response.{Response};
ghost use Rattle.wire_write.specs.Responses.{response_text};
ghost use Rattle.wire_laws.specs.Responses.{IsWritten};
ghost use Rattle.response_read.specs.Responses.{response_of_body};
ghost use Rattle.response_laws.specs.Sizes.{IsSizedResponse};
ghost use Rattle.response_laws.specs.Told.{IsNumbered};

/// The text of a response (`tailcfg.MapResponse`) is read as that response, where its fields have
/// values of their types, its number is at least 1 or there is none, no key ends at the first moment,
/// the protocols of each rule rise from 1 on, and the suffixes of DNS routes rise.
pub fn a_response_is_read_back()
    ensures back { (r : Response) → IsWritten r → IsSizedResponse r → IsNumbered r
        → IsUtf8 (response_text r) → response_of_body (response_text r) ≡ Some r }
{}
