//! Two texts, one behind the other.
ghost use Rattle.std.specs.Prelude.{◌≡◌, ◌++◌, OnOk, OnErr};
ghost use Rattle.std.specs.Fmt.{decimal};
ghost use Rattle.rare_sexpr.specs.Written.{IsCut};

use itoa::Buffer;
use rare_base::Text;
use std::alloc::AllocError;

/// Appends a text behind a lead. Want of memory leaves the old bytes and perhaps the front of both.
pub fn write_led(out: &mut Text, lead: &[u8], text: &[u8]) -> Result<(), AllocError>
    ensures ok { OnOk result (out.new ≡ out.old ++ (lead.now ++ text.now)) }
    ensures err { OnErr result (IsCut out.old (lead.now ++ text.now) out.new) }
{
    out.append(lead)?;
    out.append(text)
}

/// Appends a number in decimal behind a lead. Want of memory leaves the old bytes and perhaps the front of both.
pub fn write_number(out: &mut Text, lead: &[u8], n: u128) -> Result<(), AllocError>
    ensures ok { OnOk result (out.new ≡ out.old ++ (lead.now ++ decimal n)) }
    ensures err { OnErr result (IsCut out.old (lead.now ++ decimal n) out.new) }
{
    let mut buffer = Buffer::new();
    write_led(out, lead, buffer.format(n).as_bytes())
}
