//! The first core words of a type.

ghost use Rattle.std.specs.Prelude.{◌≡◌, ◌≤◌, ◌-◌, [], ◌∷◌, ◌++◌, length, take, nat_le, slice_get};

use crate::core_type::join;
use wit_model::WasmType;

/// The first words of a type, as far as there is room, which is at most for seventeen.
#[derive(Clone, Copy)]
pub(crate) struct Words {
    pub(crate) words: [WasmType; 17],
    pub(crate) count: usize,
    pub(crate) room: usize,
    ghost bounded: { count ≤ room },
    ghost in_array: { room ≤ 17 },
    ghost whole: { length words ≡ 17 },
}

impl Words {
    ghost use Rattle.wit_layout.specs.Flat.{joined};
    ghost use Rattle.wit_layout.specs.inside.Words.{kept};

    /// No word, and room for so many.
    pub(crate) fn none(room: usize) -> Words
        requires { room ≤ 17 }
        ensures words { kept result ≡ [] }
        ensures room { result.room ≡ room }
    {
        Words {
            words: [WasmType::I32; 17],
            count: 0,
            room,
        }
    }

    /// How many words there are.
    pub(crate) fn len(&self) -> usize
        ensures { result ≡ length (kept self.now) }
    {
        self.count
    }

    /// How many words there is room for behind these.
    pub(crate) fn left(&self) -> usize
        ensures left { result ≡ self.now.room - length (kept self.now) }
        ensures bounded { result ≤ 17 }
    {
        self.room - self.count
    }

    /// The word at a place, counted from 0.
    pub(crate) fn get(&self, at: usize) -> Option<WasmType>
        ensures { result ≡ slice_get (kept self.now) at }
    {
        if at < self.count {
            return Some(self.words[at]);
        }
        None
    }

    /// The words, and one more behind them, where there is room.
    pub(crate) fn with(self, word: WasmType) -> Words
        ensures words { kept result ≡ take self.room (kept self ++ word ∷ []) }
        ensures room { result.room ≡ self.room }
    {
        if self.count >= self.room {
            return self;
        }
        let mut words = self.words;
        words[self.count] = word;
        Words {
            words,
            count: self.count + 1,
            room: self.room,
        }
    }

    /// The words, and others behind them, as far as there is room.
    pub(crate) fn followed_by(self, more: Words) -> Words
        ensures words { kept result ≡ take self.room (kept self ++ kept more) }
        ensures room { result.room ≡ self.room }
    {
        let mut all = self;
        for at in 0..more.count {
            all = all.with(more.words[at]);
        }
        all
    }

    /// The slots that hold these words and others, as far as there is room.
    pub(crate) fn joined_with(self, other: Words) -> Words
        ensures words { kept result ≡ take self.room (joined (kept self) (kept other)) }
        ensures room { result.room ≡ self.room }
    {
        let mut all = Words::none(self.room);
        for at in 0..17 {
            match (self.get(at), other.get(at)) {
                (Some(a), Some(b)) => all = all.with(join(a, b)),
                (Some(a), None) => all = all.with(a),
                (None, Some(b)) => all = all.with(b),
                (None, None) => {}
            }
        }
        all
    }
}
