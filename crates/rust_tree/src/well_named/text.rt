//! Names, lines and quoted texts.

ghost use Rattle.std.specs.Prelude.{◌≡◌, ◌==◌, ◌||◌, not};
ghost use Rattle.std.specs.List.{list_all};
ghost use Rattle.rust_tree.specs.Ident.{is_ident};
ghost use Rattle.rust_tree.specs.WellNamed.{are_path_names, is_ident_part, is_line, is_option_line, is_quotable};

use crate::ident::{all_may_follow, is_ident};
use crate::path::Path;
use wit_model::Text;

fn is_line(text: &Text) -> bool
    ensures { result ≡ is_line text.now }
{
    text.as_str().as_bytes().iter().all(|c| *c != b'\n')
}

pub(crate) fn are_lines(texts: &[Text]) -> bool
    ensures { result ≡ list_all is_line texts.now }
{
    texts.iter().all(|text| is_line(text))
}

fn may_be_quoted(c: u8) -> bool
    ensures { result ≡ not ((c == 34) || (c == 92) || (c == 10)) }
{
    !(c == b'"' || c == b'\\' || c == b'\n')
}

pub(crate) fn is_quotable(text: &Text) -> bool
    ensures { result ≡ is_quotable text.now }
{
    text.as_str().as_bytes().iter().all(|c| may_be_quoted(*c))
}

fn is_option_line(text: &Text) -> bool
    ensures { result ≡ is_option_line text.now }
{
    text.as_str().as_bytes().starts_with(b"//   * ") && is_line(text)
}

pub(crate) fn are_option_lines(texts: &[Text]) -> bool
    ensures { result ≡ list_all is_option_line texts.now }
{
    texts.iter().all(|text| is_option_line(text))
}

pub(crate) fn is_ident_part(text: &Text) -> bool
    ensures { result ≡ is_ident_part text.now }
{
    all_may_follow(text.as_str().as_bytes())
}

pub(crate) fn are_ident_parts(texts: &[Text]) -> bool
    ensures { result ≡ list_all is_ident_part texts.now }
{
    texts.iter().all(|text| is_ident_part(text))
}

pub(crate) fn is_name(text: &Text) -> bool
    ensures { result ≡ is_ident text.now }
{
    is_ident(text.as_str())
}

fn are_names(texts: &[Text]) -> bool
    ensures { result ≡ list_all is_ident texts.now }
{
    texts.iter().all(|text| is_name(text))
}

pub(crate) fn are_path_names(names: &[Text]) -> bool
    ensures { result ≡ are_path_names names.now }
{
    match names.split_first() {
        None => false,
        Some((first, others)) => {
            let begins = is_name(first) || first.as_str() == "crate" || first.as_str() == "self";
            begins && are_names(others)
        }
    }
}

pub(crate) fn are_named_paths(paths: &[Path]) -> bool
    ensures { result ≡ list_all (λ path. are_path_names path.names) paths.now }
{
    paths
        .iter()
        .all(|path| are_path_names(path.names.as_slice()))
}
