//! Whether texts are distinct.

ghost use Rattle.std.specs.Prelude.{◌≡◌, IfOk, map};
ghost use Rattle.wit_model.specs.Distinct.{is_distinct};

use crate::memory::OutOfMemory;
use crate::text::Text;
use std::alloc::Global;
use std::collections::HashSet;

/// Whether no two of these texts are equal; the texts are std's. It takes memory for a set of the texts and answers
/// `OutOfMemory` where there is none.
pub fn are_distinct(alloc: Global, texts: &[&str]) -> Result<bool, OutOfMemory>
    ensures { IfOk result (λ b. b ≡ is_distinct (map (λ t. t.now) texts.now)) }
{
    let mut later = HashSet::new(alloc);
    let mut left = texts.len();
    while left > 0 {
        left -= 1;
        let text = texts[left];
        if !later.insert(text)? {
            return Ok(false);
        }
    }
    Ok(true)
}

fn as_strs(alloc: Global, texts: &[Text]) -> Result<Vec<&str>, OutOfMemory>
    ensures { IfOk result (λ strs. map (λ s. s.now) strs.items ≡ texts.now) }
{
    let mut strs = Vec::new(alloc);
    for text in texts {
        strs.push(text.as_str())?;
    }
    Ok(strs)
}

/// Whether no two of these texts are equal, as `are_distinct` tells it; the texts are `Text`s, as the tables have them.
/// It takes memory for a list of references to them and for that set, and answers `OutOfMemory` where there is none.
pub fn are_distinct_texts(alloc: Global, texts: &[Text]) -> Result<bool, OutOfMemory>
    ensures { IfOk result (λ b. b ≡ is_distinct texts.now) }
{
    are_distinct(alloc, as_strs(alloc, texts)?.as_slice())
}
