//! Lists in a column: the texts of their elements, joined by commas.
ghost use Rattle.std.specs.Prelude.{◌≡◌, ◌<◌, ◌+◌, ◌++◌, ◌∷◌, [], IfOk, IfSome, OnOk, drop, length, position};
ghost use Rattle.std.specs.List.{All};
ghost use Rattle.std.specs.Option.{option_map};
ghost use Rattle.store_rows.specs.Lists.{is_separator, list_text, spelled_list};
ghost use Rattle.store_rows.specs.Reads.{IsReadBack};

use crate::cell::Cell;
use crate::column::Column;
use crate::listed::Listed;
use crate::same::is_same;
use crate::utf8::text_is_utf8;
use std::alloc::Global;
use tail_base::{Items, NoMemory, Text};

/// Adds the text of an element, and a comma where there are more.
fn push_element<T: Listed>(
    alloc: Global,
    text: &mut Text,
    item: &T,
    more: &[T],
) -> Result<(), NoMemory>
    ensures ok { OnOk result (text.new ++ list_text T.text more.now
        ≡ text.old ++ list_text T.text (item.now ∷ more.now)) }
    ensures fit { OnOk result (T.Fits item.now) }
{
    let piece = item.listed_text(alloc)?;
    text.push(piece.as_str())?;
    match more {
        [] => Ok(()),
        [..] => text.push(","),
    }
}

/// The texts of the elements, joined by commas.
fn text_of_list<T: Listed>(alloc: Global, items: &[T]) -> Result<Text, NoMemory>
    ensures value { IfOk result (λ made. made ≡ list_text T.text items.now) }
    ensures fit { OnOk result (All T.Fits items.now) }
{
    let mut text = Text::new(alloc);
    let mut rest = items;
    while let [item, more @ ..] = rest {
        push_element(alloc, &mut text, item, more)?;
        rest = more;
    }
    Ok(text)
}

/// Where the first comma stands.
fn place_of_comma(text: &[u8]) -> Option<usize>
    ensures value { result ≡ position is_separator text.now }
    ensures inside { IfSome result (λ at. at < length text.now) }
{
    text.iter().position(|b| *b == b',')
}

/// What stands behind a comma.
fn behind(text: &[u8], comma: usize) -> &[u8]
    requires inside { comma < length text.now }
    ensures value { result.now ≡ drop (comma + 1) text.now }
{
    &text[comma + 1..]
}

/// The elements with the one that a text spells.
fn with_piece<T: Listed>(
    alloc: Global,
    items: Items<T>,
    text: &[u8],
) -> Result<Option<Items<T>>, NoMemory>
    requires fit { All T.Fits items }
    ensures value { IfOk result (λ made.
        made ≡ option_map (λ x. items ++ x ∷ []) (T.of_text text.now)) }
    ensures fit { IfOk result (λ made. IfSome made (All T.Fits)) }
{
    let Some(item) = T::spelled(alloc, text)? else {
        return Ok(None);
    };
    let mut items = items;
    items.push(item)?;
    Ok(Some(items))
}

/// The elements that a text spells between its commas, in whatever spelling.
fn spelled_list<T: Listed>(alloc: Global, text: &[u8]) -> Result<Option<Items<T>>, NoMemory>
    ensures value { IfOk result (λ found. found ≡ spelled_list T.of_text text.now) }
    ensures fit { IfOk result (λ found. IfSome found (All T.Fits)) }
{
    if text.is_empty() {
        return Ok(Some(Items::new(alloc)));
    }
    let mut items = Items::new(alloc);
    let mut rest = text;
    while let Some(at) = place_of_comma(rest) {
        let Some(more) = with_piece(alloc, items, &rest[..at])? else {
            return Ok(None);
        };
        items = more;
        rest = behind(rest, at);
    }
    with_piece(alloc, items, rest)
}

/// The list that is written as this text, if there is one.
fn read_list<T: Listed>(alloc: Global, text: &[u8]) -> Result<Option<Items<T>>, NoMemory>
    ensures exact { IfOk result (λ found.
        IsReadBack (list_text T.text) (All T.Fits) text.now found) }
{
    T::texts_are_listed();
    let Some(items) = spelled_list::<T>(alloc, text)? else {
        return Ok(None);
    };
    let again = text_of_list(alloc, items.as_slice())?;
    if is_same(again.as_slice(), text) {
        Ok(Some(items))
    } else {
        Ok(None)
    }
}

impl<T: Listed> Column for Items<T> {
    ghost use Rattle.std.specs.List.{All};
    ghost use Rattle.store_rows.specs.declared.cell.Cell.TheVariants.{Text as TextCell};
    ghost use Rattle.store_rows.specs.Lists.{list_text};

    ghost stored = { λ xs. TextCell (list_text T.text xs) };

    ghost Fits = { All T.Fits };

    ghost Has = { All T.Fits };

    fn write(&self, alloc: Global) -> Result<Cell, NoMemory> {
        let text = text_of_list(alloc, self.as_slice())?;
        text_is_utf8(text.as_str());
        Ok(Cell::Text(text))
    }

    fn read(alloc: Global, given: &Cell) -> Result<Option<Self>, NoMemory> {
        match given {
            Cell::Text(text) => read_list(alloc, text.as_slice()),
            Cell::Null | Cell::Number(_) | Cell::Blob(_) | Cell::Other => Ok(None),
        }
    }
}
