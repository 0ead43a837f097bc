// Values under rising numbers, looked up by binary search.
ghost use Rattle.std.specs.Prelude.{◌≡◌, MatchBool, MatchOption};
ghost use Rattle.tree.specs.Numbers.{Rising};
ghost use Rattle.index.specs.Keys.{keys, first_key, lookup};

use super::keyed::Keyed;

#[derive(Drop)]
pub struct Index<V> {
    items: Vec<Keyed<V>>,
    ghost rising: { Rising (keys items.items) },
}

// Whether each item has a higher number than the one before it.
fn rises<V: Copy>(items: &[Keyed<V>]) -> bool
    ensures { MatchBool result (Rising (keys items.now)) (Rising (keys items.now) → ⊥) }
{
    let mut i = 1;
    while i < items.len() {
        if items[i - 1].key >= items[i].key {
            return false;
        }
        i += 1;
    }
    true
}

// The value under the number `key`, if there is one.
fn find<V: Copy>(items: &[Keyed<V>], key: u32) -> Option<V>
    requires { Rising (keys items.now) }
    ensures { result ≡ lookup items.now key }
{
    let mut low = 0;
    let mut high = items.len();
    while low < high {
        let mid = low + (high - low) / 2;
        let item = items[mid];
        if item.key == key {
            return Some(item.value);
        }
        if item.key < key {
            low = mid + 1;
        } else {
            high = mid;
        }
    }
    None
}

impl<V: Copy> Index<V> {
    // The items, if their numbers rise.
    pub fn new(items: Vec<Keyed<V>>) -> Option<Index<V>>
        ensures { MatchOption result (Rising (keys items.items) → ⊥) (λ x. x.items.items ≡ items.items) }
    {
        if rises(&items) {
            Some(Index { items })
        } else {
            None
        }
    }

    // The lowest number, if there is one.
    pub fn first(&self) -> Option<u32>
        ensures { result ≡ first_key self.now.items.items }
    {
        self.items.first().map(|item| item.key)
    }

    // The value under the number `key`, if there is one.
    pub fn get(&self, key: u32) -> Option<V>
        ensures { result ≡ lookup self.now.items.items key }
    {
        find(&self.items, key)
    }
}
