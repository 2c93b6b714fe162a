//! The conditions under which a wrapper runs, beside those on heaps.

ghost use Rattle.std.specs.Prelude.{◌≡◌, ◌==◌, length};
ghost use Rattle.wrapper_trace.specs.Conditions.{are_words, core_result, is_answer, is_pointer, is_result};

use rust_tree::{CoreParam, FnItem, Stmt};
use wit_model::WasmType;
use wrapper_data::{Answer, RustValue, Word};
use wrapper_run::is_word_of;

/// Whether an import's wrapper has as many parameters as there are arguments.
pub(crate) fn takes(f: &FnItem, args: &[RustValue]) -> bool
    ensures { result ≡ (length args.now == length f.now.params) }
{
    args.len() == f.params.len()
}

/// Whether the peer of an import answers a word of the type of the core result, or none where there is no core result.
pub(crate) fn is_answer(f: &FnItem, answer: &Answer) -> bool
    ensures { result ≡ is_answer f.now.body.stmts answer.now }
{
    match answer {
        Answer::Words { result: word, .. } => is_result(
            core_result(f.body.stmts.as_slice()),
            *word,
        ),
        Answer::Value { .. } => false,
    }
}

/// The type of the core result of the import that statements declare first.
fn core_result(stmts: &[Stmt]) -> Option<WasmType>
    ensures { result ≡ core_result stmts.now }
{
    match stmts.split_first() {
        None => None,
        Some((Stmt::Import(declared), _)) => declared.result,
        Some((_, stmts)) => core_result(stmts),
    }
}

fn is_result(ty: Option<WasmType>, word: Option<Word>) -> bool
    ensures { result ≡ is_result ty word }
{
    match (ty, word) {
        (None, None) => true,
        (Some(ty), Some(word)) => is_word_of(ty, word),
        _ => false,
    }
}

/// Whether words are those of a core signature.
pub(crate) fn are_words(params: &[CoreParam], words: &[Word]) -> bool
    ensures { result ≡ are_words params.now words.now }
{
    match (params.split_first(), words.split_first()) {
        (None, None) => true,
        (Some((param, params)), Some((word, words))) => {
            is_word_of(param.ty, *word) && are_words(params, words)
        }
        _ => false,
    }
}

/// Whether words are one address.
pub(crate) fn is_pointer(words: &[Word]) -> bool
    ensures { result ≡ is_pointer words.now }
{
    match words {
        [Word::Pointer(_)] => true,
        _ => false,
    }
}
