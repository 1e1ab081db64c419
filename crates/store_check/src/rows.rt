// A partition as it lies in a store: its bytes, how many rows there is room for and are used, and where its keys and its values begin.
ghost use Rattle.std.specs.Prelude.{◌&&◌, ◌≡◌, ◌+◌, ◌-◌, ◌*◌, ◌≤◌, ◌<◌, leb, length};
ghost use Rattle.words.specs.Words.{le};
ghost use Rattle.questions.specs.Basics.{each_from};
ghost use Rattle.store.specs.Layout.{parts_of};
ghost use Rattle.store.specs.Questions.{blank_row};
ghost use Rattle.store.specs.Sound.{Dimensions};

use store::head::{capacity, key_place, used_count, value_place};

#[derive(Clone, Copy)]
pub struct Rows<'a> {
    pub store: &'a [u8],
    pub cap: usize,
    pub used: usize,
    pub keys_at: usize,
    pub values_at: usize,
    ghost keys_within: { keys_at + 8 * cap ≤ length store.now },
    ghost values_within: { values_at + 4 * cap ≤ length store.now },
}

impl<'a> Rows<'a> {
    ghost use Rattle.store_check.specs.Places.{Places};

    // The rows of a partition. Their places are worked out once.
    #[tactic(auto, using(crate::proofs::Steps::places_within))]
    pub fn of(store: &'a [u8], partition: usize) -> Rows<'a>
        requires { Dimensions store.now × (partition ≤ parts_of store.now) }
        ensures { Places store.now partition result }
    {
        Rows {
            store,
            cap: capacity(store),
            used: used_count(store, partition),
            keys_at: key_place(store, partition, 0),
            values_at: value_place(store, partition, 0),
        }
    }

    // The key of a row.
    pub fn key(&self, row: usize) -> u64
        requires { row < self.now.cap }
        ensures { result ≡ le 8 self.now.store.now (self.now.keys_at + 8 * row) }
    {
        words::read64(self.store, self.keys_at + 8 * row)
    }

    // The value of a row.
    pub fn value(&self, row: usize) -> u32
        requires { row < self.now.cap }
        ensures { result ≡ le 4 self.now.store.now (self.now.values_at + 4 * row) }
    {
        words::read32(self.store, self.values_at + 4 * row)
    }

    // Are the rows that aren't used zero?
    fn blank(&self) -> bool
        requires { self.now.used ≤ self.now.cap }
        ensures { result
            ≡ each_from (blank_row self.now.store.now self.now.keys_at self.now.values_at) (self.now.cap - self.now.used) self.now.used }
    {
        (self.used..self.cap).all(|row| self.key(row) == 0 && self.value(row) == 0)
    }

    // Are no more rows used than there is room for, and are the others zero?
    pub fn filled(&self) -> bool
        ensures { result ≡ (leb self.now.used self.now.cap
            && each_from (blank_row self.now.store.now self.now.keys_at self.now.values_at) (self.now.cap - self.now.used) self.now.used) }
    {
        self.used <= self.cap && self.blank()
    }
}
