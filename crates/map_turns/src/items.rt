// Items of maps.
ghost use Rattle.std.specs.Prelude.{◌≡◌};

use places::item::{Item, Key, KeyKind, Part};
use places::place::Place;

// An item with this key and this place.
pub(crate) fn item(kind: KeyKind, number: u32, part: Part, place: Place) -> Item
    ensures { result ≡ record { key = record { kind = kind; number = number; part = part }; place = place } }
{
    Item {
        key: Key { kind, number, part },
        place,
    }
}
