ghost use Rattle.std.specs.Prelude.{◌≡◌, ◌<◌, ◌≤◌, length};
ghost use Rattle.unit_trait.specs.Kinds.{units_of, unit_name};

use line_text::Text;
use unit_trait::{UnitName, unit_text};

/// The name of a unit.
pub fn unit_name(unit: UnitName) -> Text<8>
    requires { unit.unit < units_of unit.kind }
    ensures name { result ≡ unit_name unit }
    ensures short { length (unit_name unit) ≤ 8 }
{
    let mut bytes = [0; 8];
    let count = unit_text(unit, &mut bytes);
    let mut text = Text::new();
    text.push_all(&bytes[..count]);
    text
}
