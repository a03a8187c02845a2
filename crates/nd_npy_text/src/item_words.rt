//! Reading an item type, such as `<f8`.

ghost use Rattle.std.specs.Prelude.{◌≡◌, IsTrue, IfOk, IfSome};
ghost use Rattle.std.specs.Result.{result_map_both};
ghost use Rattle.nd_npy_text.specs.ItemTypes.{order_marked, signed_sized, unsigned_sized, float_sized, complex_sized, bool_sized, npy_kind_named, in_order, item_type_named, has_its_order};
ghost use Rattle.nd_npy_text.specs.ItemTypeReading.{is_kind_letter, letter_flaw, item_word_in, quoted_item_in, item_type_here};

use crate::errors::HeaderFlaw;
use crate::header_tokens::{after_text, number_here};
use crate::item_type::{ByteOrder, ItemType, Kind};

/// Returns the byte order that is written as `mark`, if there is one.
fn order_marked(mark: u8) -> Option<ByteOrder>
    ensures { result ≡ order_marked mark }
{
    match mark {
        b'<' => Some(ByteOrder::Little),
        b'>' => Some(ByteOrder::Big),
        b'|' => Some(ByteOrder::NotApplicable),
        _ => None,
    }
}

/// Returns the kind of signed integers of `size` bytes, if there is one.
fn signed_sized(size: usize) -> Option<Kind>
    ensures { result ≡ signed_sized size }
{
    match size {
        1 => Some(Kind::Int8),
        2 => Some(Kind::Int16),
        4 => Some(Kind::Int32),
        8 => Some(Kind::Int64),
        _ => None,
    }
}

/// Returns the kind of unsigned integers of `size` bytes, if there is one.
fn unsigned_sized(size: usize) -> Option<Kind>
    ensures { result ≡ unsigned_sized size }
{
    match size {
        1 => Some(Kind::UInt8),
        2 => Some(Kind::UInt16),
        4 => Some(Kind::UInt32),
        8 => Some(Kind::UInt64),
        _ => None,
    }
}

/// Returns the kind of floats of `size` bytes, if there is one.
fn float_sized(size: usize) -> Option<Kind>
    ensures { result ≡ float_sized size }
{
    match size {
        2 => Some(Kind::Float16),
        4 => Some(Kind::Float32),
        8 => Some(Kind::Float64),
        _ => None,
    }
}

/// Returns the kind of complex numbers of `size` bytes, if there is one.
fn complex_sized(size: usize) -> Option<Kind>
    ensures { result ≡ complex_sized size }
{
    match size {
        8 => Some(Kind::Complex64),
        16 => Some(Kind::Complex128),
        _ => None,
    }
}

/// Returns the kind of booleans of `size` bytes, if there is one.
fn bool_sized(size: usize) -> Option<Kind>
    ensures { result ≡ bool_sized size }
{
    match size {
        1 => Some(Kind::Bool),
        _ => None,
    }
}

/// Returns the kind with this letter and elements of `size` bytes, if there is one.
fn kind_named(letter: u8, size: usize) -> Option<Kind>
    ensures { result ≡ npy_kind_named letter size }
{
    match letter {
        b'b' => bool_sized(size),
        b'i' => signed_sized(size),
        b'u' => unsigned_sized(size),
        b'f' => float_sized(size),
        b'c' => complex_sized(size),
        _ => None,
    }
}

/// Returns the item type of a kind and a byte order, if the kind can have this order.
fn in_order(kind: Kind, order: ByteOrder) -> Option<ItemType>
    ensures value { result ≡ in_order order kind }
    ensures order { IfSome result (λ t. IsTrue (has_its_order t)) }
{
    let item_type = ItemType { kind, order };
    if item_type.has_its_order() {
        Some(item_type)
    } else {
        None
    }
}

/// Returns the item type that is written as a mark, a letter and a size, if there is one.
#[tactic(auto, unfolding(crate::specs::ItemTypes::item_type_named))]
fn item_type_named(mark: u8, letter: u8, size: usize) -> Option<ItemType>
    ensures value { result ≡ item_type_named mark letter size }
    ensures order { IfSome result (λ t. IsTrue (has_its_order t)) }
{
    match order_marked(mark) {
        Some(order) => match kind_named(letter, size) {
            Some(kind) => in_order(kind, order),
            None => None,
        },
        None => None,
    }
}

/// Returns whether `letter` is that of a kind that is supported.
#[tactic(auto, unfolding(crate::specs::ItemTypeReading::is_kind_letter))]
fn is_kind_letter(letter: u8) -> bool
    ensures { result ≡ is_kind_letter letter }
{
    letter == b'b' || letter == b'i' || letter == b'u' || letter == b'f' || letter == b'c'
}

/// Returns the flaw of an item type whose letter isn't supported.
#[tactic(auto, unfolding(crate::specs::ItemTypeReading::letter_flaw))]
fn letter_flaw(letter: u8) -> HeaderFlaw
    ensures { result ≡ letter_flaw letter }
{
    match letter {
        b'O' => HeaderFlaw::Object,
        b'S' => HeaderFlaw::ByteString,
        b'a' => HeaderFlaw::ByteString,
        b'U' => HeaderFlaw::Text,
        b'M' => HeaderFlaw::Date,
        b'm' => HeaderFlaw::Duration,
        b'V' => HeaderFlaw::Raw,
        _ => HeaderFlaw::OtherItems,
    }
}

/// Returns the item type at the front of `text`, and what follows it.
fn item_word_in(text: &[u8]) -> Result<(ItemType, &[u8]), (usize, HeaderFlaw)>
    ensures value { result_map_both (λ x. (x.0, x.1.now)) (λ stop. stop) result ≡ item_word_in text.now }
    ensures order { IfOk result (λ x. IsTrue (has_its_order x.0)) }
{
    match text {
        [mark, letter, after @ ..] => {
            if !is_kind_letter(*letter) {
                return Err((text.len(), letter_flaw(*letter)));
            }
            match number_here(HeaderFlaw::OtherItems, after) {
                Ok((size, rest)) => match item_type_named(*mark, *letter, size) {
                    Some(item_type) => Ok((item_type, rest)),
                    None => Err((text.len(), HeaderFlaw::OtherItems)),
                },
                Err(stop) => Err(stop),
            }
        }
        _ => Err((text.len(), HeaderFlaw::OtherItems)),
    }
}

/// Returns the item type at the front of `text`, and what follows the byte `quote` after it.
#[tactic(auto, unfolding(crate::specs::ItemTypeReading::quoted_item_in))]
fn quoted_item_in(quote: u8, text: &[u8]) -> Result<(ItemType, &[u8]), (usize, HeaderFlaw)>
    ensures value { result_map_both (λ x. (x.0, x.1.now)) (λ stop. stop) result ≡ quoted_item_in quote text.now }
    ensures order { IfOk result (λ x. IsTrue (has_its_order x.0)) }
{
    match item_word_in(text) {
        Ok((item_type, rest)) => match after_text(HeaderFlaw::ItemType, &[quote], rest) {
            Ok(rest) => Ok((item_type, rest)),
            Err(stop) => Err(stop),
        },
        Err(stop) => Err(stop),
    }
}

/// Returns the item type in quotes at the front of `text`, and what follows the second quote.
#[tactic(auto, unfolding(crate::specs::ItemTypeReading::item_type_here))]
pub(crate) fn item_type_here(text: &[u8]) -> Result<(ItemType, &[u8]), (usize, HeaderFlaw)>
    ensures value { result_map_both (λ x. (x.0, x.1.now)) (λ stop. stop) result ≡ item_type_here text.now }
    ensures order { IfOk result (λ x. IsTrue (has_its_order x.0)) }
{
    match text {
        [byte, ..] if *byte == b'[' || *byte == b'(' => Err((text.len(), HeaderFlaw::Record)),
        [byte, after @ ..] if *byte == b'\'' || *byte == b'"' => quoted_item_in(*byte, after),
        _ => Err((text.len(), HeaderFlaw::ItemType)),
    }
}
