//! What a row takes beside its texts.
ghost use Rattle.std.specs.Prelude.{◌≡◌, ◌+◌, ◌*◌, ◌^◌, ◌<◌, ◌≤◌, length, IfOk, IfErr};
ghost use Rattle.xq_packed.specs.private.Shapes.{value_end, value_start};

use xq_atoms::Want;
use xq_trees::Kind;

/// The greatest length of a text whose places have six bytes: more than any machine keeps.
const MOST_TEXT: usize = 0xFFFF_FFFF_FFFF;

/// A row without its texts, in sixteen bytes.
#[derive(Clone, Copy)]
pub struct Shape {
    pub size: u32,
    /// The number of the name.
    pub name: u32,
    /// Where the value ends in the text of all values: its lower four bytes.
    pub end_low: u32,
    /// The upper two bytes.
    pub end_high: u16,
    pub level: u8,
    pub kind: Kind,
}

impl Shape {
    /// Where the value ends in the text of all values.
    #[inline]
    pub fn value_end(&self) -> usize
        ensures { result ≡ value_end self.now }
    {
        self.end_high as usize * 0x1_0000_0000 + self.end_low as usize
    }
}

/// The two parts of the place that is `more` after a place, where it has six bytes.
pub fn end_after(place: usize, more: usize) -> Result<(u32, u16), Want>
    ensures parts { IfOk result (λ parts. parts.1 * 2 ^ 32 + parts.0 ≡ place + more) }
    ensures want { IfErr result (λ want. want ≡ Want.Memory) }
{
    if place > MOST_TEXT || more > MOST_TEXT - place {
        return Err(Want::Memory);
    }
    let end = place + more;
    Ok(((end % 0x1_0000_0000) as u32, (end / 0x1_0000_0000) as u16))
}

/// Where the value of the row at a place begins.
#[inline]
pub fn start_at(shapes: &[Shape], at: usize) -> usize
    requires { at ≤ length shapes.now }
    ensures { result ≡ value_start 0 shapes.now at }
{
    if at == 0 {
        0
    } else {
        shapes[at - 1].value_end()
    }
}
