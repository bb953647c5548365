//! A law of streams. This function does nothing: it states a law.
ghost use Rattle.std.specs.Prelude.{◌≡◌, ◌++◌, ℕ, List, map};
ghost use Rattle.tailcfg.specs.declared.response.Response.{Response};
ghost use Rattle.http_front.specs.Streams.{chunks_of, last_chunk, stream_of};
ghost use Rattle.fresh_maps.specs.Frames.{frame_of};
ghost use Rattle.wire_laws.specs.Frames.{AreFramed};
ghost use Rattle.wire_laws.specs.Responses.{IsWritten};

/// The frame of a response tells it. The chunks that were written so far tell which responses they
/// carry, in which order, and so does a whole stream, whose end is told by its bytes alone, whatever
/// comes behind.
pub fn streams_tell_responses()
    ensures frame { (a b : Response) → IsWritten a → IsWritten b → frame_of a ≡ frame_of b → a ≡ b }
    ensures so_far { (rs ss : List Response) → AreFramed rs → AreFramed ss
        → chunks_of (map frame_of rs) ≡ chunks_of (map frame_of ss) → rs ≡ ss }
    ensures stream { (rs ss : List Response) → AreFramed rs → AreFramed ss
        → stream_of (map frame_of rs) ≡ stream_of (map frame_of ss) → rs ≡ ss }
    ensures one_way { (rs ss : List Response) (rest behind : List ℕ) → AreFramed rs → AreFramed ss
        → chunks_of (map frame_of rs) ++ (last_chunk ++ rest)
        ≡ chunks_of (map frame_of ss) ++ (last_chunk ++ behind)
        → (rs ≡ ss) × (rest ≡ behind) }
{}
