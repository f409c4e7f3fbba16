//! Texts without the case of ASCII letters.

ghost use Rattle.std.specs.Prelude.{◌≡◌, ◌↔◌, IsTrue, length};
ghost use Rattle.lol_base.specs.Names.{lowercased};

/// How many bytes are compared before the result is looked at: so the processor compares 16 in a step.
const STEP: usize = 64;

/// Whether two texts are equal up to the case of ASCII letters.
pub(crate) fn eq_ignore_ascii_case(a: &[u8], b: &[u8]) -> bool
    ensures { IsTrue result ↔ (lowercased a.now ≡ lowercased b.now) }
{
    if a.len() != b.len() {
        return false;
    }
    let mut rest = a;
    let mut other = b;
    while rest.len() >= STEP {
        if !are_equal(&rest[..STEP], &other[..STEP]) {
            return false;
        }
        rest = &rest[STEP..];
        other = &other[STEP..];
    }
    rest.eq_ignore_ascii_case(other)
}

/// Whether two texts of one length are equal up to the case of ASCII letters. Each byte is looked at.
fn are_equal(a: &[u8], b: &[u8]) -> bool
    requires { length a.now ≡ length b.now }
    ensures { IsTrue result ↔ (lowercased a.now ≡ lowercased b.now) }
{
    let mut equal = true;
    for offset in 0..a.len() {
        equal &= a[offset].to_ascii_lowercase() == b[offset].to_ascii_lowercase();
    }
    equal
}
