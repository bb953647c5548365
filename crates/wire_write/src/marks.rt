//! Names and brackets.
ghost use Rattle.std.specs.Prelude.{◌≡◌, [], ◌∷◌, OnOk};
ghost use Rattle.json.specs.Token.{begin_array, begin_object, end_array, end_object, key};
ghost use Rattle.wire_write.specs.Tokens.{Adds};

use json::Writer;
use tail_base::NoMemory;

#[inline]
pub(crate) fn begin_array(out: &mut Writer) -> Result<(), NoMemory>
    ensures adds { OnOk result (Adds (begin_array ∷ []) out.old out.new) }
{
    out.begin_array()?;
    Ok(())
}

#[inline]
pub(crate) fn end_array(out: &mut Writer) -> Result<(), NoMemory>
    ensures adds { OnOk result (Adds (end_array ∷ []) out.old out.new) }
{
    out.end_array()?;
    Ok(())
}

#[inline]
pub(crate) fn begin_object(out: &mut Writer) -> Result<(), NoMemory>
    ensures adds { OnOk result (Adds (begin_object ∷ []) out.old out.new) }
{
    out.begin_object()?;
    Ok(())
}

#[inline]
pub(crate) fn end_object(out: &mut Writer) -> Result<(), NoMemory>
    ensures adds { OnOk result (Adds (end_object ∷ []) out.old out.new) }
{
    out.end_object()?;
    Ok(())
}

#[inline]
pub(crate) fn write_name(name: &str, out: &mut Writer) -> Result<(), NoMemory>
    ensures adds { OnOk result (Adds (key name.now ∷ []) out.old out.new) }
{
    out.key(name)?;
    Ok(())
}
