// What items are made of: white space, names, entities, plain text and values between quotes.
ghost use Rattle.std.specs.Prelude.{◌≡◌, ◌<◌, ◌≤◌, ◌+◌, ◌-◌, length, true, IfSome, Some, None, [], ◌∷◌, take, drop};
ghost use Rattle.std.specs.Prelude.{codes};
ghost use Rattle.std.specs.Option.{option_map};
ghost use Rattle.std.specs.List.{prefix_len};
ghost use Rattle.lists_and_answers.specs.Texts.{is_white};
ghost use Rattle.vrt_markup.specs.Items.{is_name, is_some, strip, trim_front, is_first, is_later, has_first, name_at};
ghost use Rattle.vrt_markup.specs.Items.{byte_at, after_comment, entity_at, ends_at, plain_len, spaces_at, quote_at};
ghost use Rattle.vrt_markup.specs.Items.{value_at, is_equal};

use lists_and_answers::is_white;

/// What stands behind the front, where the text begins so.
#[inline(always)]
pub(crate) fn strip<'a>(text: &'a [u8], front: &[u8]) -> Option<&'a [u8]>
    ensures rest { option_map (λ r. r.now) result ≡ strip front.now text.now }
    ensures shorter { IfSome result (λ r. length r.now + length front.now ≤ length text.now) }
{
    text.strip_prefix(front)
}

#[inline(never)]
fn white_len(text: &[u8]) -> usize
    ensures count { result ≡ prefix_len is_white text.now }
    ensures bound { result ≤ length text.now }
{
    text.iter().take_while(|c| is_white(**c)).count()
}

/// Whether white space stands in front.
#[tactic(auto, using(crate::proofs::Names::space_tells))]
pub(crate) fn has_space(text: &[u8]) -> bool
    ensures space { result ≡ is_some (spaces_at text.now) }
{
    match text {
        [c, ..] => is_white(*c),
        [] => false,
    }
}

/// A text without the white space in front.
#[tactic(auto, using(crate::proofs::Bare::untrimmed))]
pub fn trim_front(text: &[u8]) -> &[u8]
    ensures rest { result.now ≡ trim_front text.now }
    ensures shorter { length result.now ≤ length text.now }
{
    if !has_space(text) {
        return text;
    }
    let (_, rest) = text.split_at(white_len(text));
    rest
}

fn is_first(c: u8) -> bool
    ensures { result ≡ is_first c }
{
    (b'A' <= c && c <= b'Z') || (b'a' <= c && c <= b'z') || c == b'_'
}

// Each byte that may stand in a name stands at its own place, and a comma at every other place.
static LATER: [u8; 256] = *b"\
    ,,,,,,,,,,,,,,,,,,,,,,,,,,,,,,,,\
    ,,,,,,,,,,,,,-.,0123456789:,,,,,\
    ,ABCDEFGHIJKLMNOPQRSTUVWXYZ,,,,_\
    ,abcdefghijklmnopqrstuvwxyz,,,,,\
    ,,,,,,,,,,,,,,,,,,,,,,,,,,,,,,,,\
    ,,,,,,,,,,,,,,,,,,,,,,,,,,,,,,,,\
    ,,,,,,,,,,,,,,,,,,,,,,,,,,,,,,,,\
    ,,,,,,,,,,,,,,,,,,,,,,,,,,,,,,,,";

fn is_later(c: u8) -> bool
    ensures { result ≡ is_later c }
{
    LATER[c as usize] != b','
}

// How many bytes in front may stand in a name, asked one at a time.
fn later_by_one(text: &[u8]) -> usize
    ensures count { result ≡ prefix_len is_later text.now }
    ensures bound { result ≤ length text.now }
{
    text.iter().take_while(|c| is_later(**c)).count()
}

// How many bytes in front may stand in a name, asked four at a time.
fn later_len(text: &[u8]) -> usize
    ensures count { result ≡ prefix_len is_later text.now }
    ensures bound { result ≤ length text.now }
{
    let mut rest = text;
    let mut count = 0;
    while let [a, b, c, d, more @ ..] = rest {
        if !is_later(*a) {
            return count;
        }
        if !is_later(*b) {
            return count + 1;
        }
        if !is_later(*c) {
            return count + 2;
        }
        if !is_later(*d) {
            return count + 3;
        }
        rest = more;
        count += 4;
    }
    count + later_by_one(rest)
}

/// Whether a name begins here.
pub(crate) fn has_first(text: &[u8]) -> bool
    ensures { result ≡ has_first text.now }
{
    match text {
        [c, ..] => is_first(*c),
        [] => false,
    }
}

/// The name that stands in front, and what stands behind it.
pub(crate) fn name_front(text: &[u8]) -> (&[u8], &[u8])
    requires first { has_first text.now ≡ true }
    ensures name { Some (result.0.now, result.1.now) ≡ name_at text.now }
    ensures named { is_name result.0.now ≡ true }
    ensures shorter { length result.1.now ≤ length text.now }
{
    text.split_at(later_len(text))
}

/// The name in front, where one stands there, and what stands behind it.
pub(crate) fn name_at(text: &[u8]) -> Option<(&[u8], &[u8])>
    ensures name { option_map (λ x. (x.0.now, x.1.now)) result ≡ name_at text.now }
    ensures named { IfSome result (λ x. is_name x.0.now ≡ true) }
    ensures shorter { IfSome result (λ x. length x.1.now ≤ length text.now) }
{
    if !has_first(text) {
        return None;
    }
    Some(name_front(text))
}

/// What stands behind the byte in front.
pub(crate) fn byte_at(text: &[u8], byte: u8) -> Option<&[u8]>
    ensures rest { option_map (λ r. r.now) result ≡ byte_at byte text.now }
    ensures shorter { IfSome result (λ r. length r.now < length text.now) }
{
    match text {
        [c, rest @ ..] if *c == byte => Some(rest),
        _ => None,
    }
}

/// What stands behind these two bytes, where the text begins with them.
#[tactic(auto, using(crate::proofs::Fronts::two_none, crate::proofs::Fronts::two_some))]
pub(crate) fn two_at(text: &[u8], first: u8, second: u8) -> Option<&[u8]>
    ensures rest { option_map (λ r. r.now) result ≡ strip (first ∷ second ∷ []) text.now }
    ensures shorter { IfSome result (λ r. length r.now < length text.now) }
{
    let rest = byte_at(text, first)?;
    byte_at(rest, second)
}

/// What stands behind the front of a comment.
#[tactic(auto, using(crate::proofs::Fronts::four_none, crate::proofs::Fronts::four_some))]
pub(crate) fn comment_front(text: &[u8]) -> Option<&[u8]>
    ensures rest { option_map (λ r. r.now) result ≡ strip (codes "<!--") text.now }
    ensures shorter { IfSome result (λ r. length r.now < length text.now) }
{
    let rest = two_at(text, b'<', b'!')?;
    two_at(rest, b'-', b'-')
}

/// What stands behind the first end of a comment.
pub(crate) fn after_comment(text: &[u8]) -> Option<&[u8]>
    ensures rest { option_map (λ r. r.now) result ≡ after_comment text.now }
    ensures shorter { IfSome result (λ r. length r.now ≤ length text.now) }
{
    let mut rest = text;
    while let [_, more @ ..] = rest {
        if let Some(behind) = strip(rest, b"-->") {
            return Some(behind);
        }
        rest = more;
    }
    None
}

/// The byte that an entity stands for, and its length behind the `&`.
#[inline(always)]
pub(crate) fn entity_at(text: &[u8]) -> Option<(u8, u8)>
    ensures entity { result ≡ entity_at text.now }
    ensures within { IfSome result (λ x. x.1 ≤ length text.now) }
    ensures plain { IfSome result (λ x. plain_len 60 text.now ≡ x.1 + plain_len 60 (drop x.1 text.now)) }
{
    match text {
        [b'a', b'm', b'p', b';', ..] => Some((b'&', 4)),
        [b'l', b't', b';', ..] => Some((b'<', 3)),
        [b'g', b't', b';', ..] => Some((b'>', 3)),
        [b'q', b'u', b'o', b't', b';', ..] => Some((b'"', 5)),
        [b'a', b'p', b'o', b's', b';', ..] => Some((b'\'', 5)),
        _ => None,
    }
}

// Whether an entity stands behind an `&`, in a function of its own: most texts have none.
#[inline(never)]
fn is_entity(text: &[u8]) -> bool
    ensures { result ≡ is_some (entity_at text.now) }
{
    entity_at(text).is_some()
}

fn ends_at(end: u8, c: u8, rest: &[u8]) -> bool
    ensures { result ≡ ends_at end c rest.now }
{
    c == b'<' || c == end || (c == b'&' && !is_entity(rest))
}

/// How many bytes of plain text stand in front.
fn plain_len(text: &[u8], end: u8) -> usize
    ensures count { result ≡ plain_len end text.now }
    ensures bound { result ≤ length text.now }
{
    let mut rest = text;
    let mut count = 0;
    while let [c, more @ ..] = rest {
        if ends_at(end, *c, more) {
            return count;
        }
        rest = more;
        count += 1;
    }
    count
}

/// What stands behind the byte or the entity in front, where plain text does not end there.
#[tactic(auto, using(crate::proofs::Entities::entity_next, crate::proofs::Entities::entity_none, crate::proofs::Entities::byte_next))]
fn behind_plain(text: &[u8]) -> Option<&[u8]>
    ensures none { result ≡ None → plain_len 60 text.now ≡ 0 }
    ensures plain { IfSome result (λ r. plain_len 60 text.now + length r.now ≡ plain_len 60 r.now + length text.now) }
    ensures shorter { IfSome result (λ r. length r.now < length text.now) }
{
    match text {
        [b'&', rest @ ..] => {
            let (_, count) = entity_at(rest)?;
            let (_, behind) = rest.split_at(count as usize);
            Some(behind)
        }
        [c, rest @ ..] if *c != b'<' => Some(rest),
        _ => None,
    }
}

/// How many bytes of plain text stand in front of a tag.
pub(crate) fn run_len(text: &[u8]) -> usize
    ensures count { result ≡ plain_len 60 text.now }
    ensures bound { result ≤ length text.now }
{
    let mut rest = text;
    while let Some(more) = behind_plain(rest) {
        rest = more;
    }
    text.len() - rest.len()
}

/// What stands behind white space, where there is some.
#[tactic(auto, using(crate::proofs::Names::none_of, crate::proofs::Names::spaces_next))]
pub(crate) fn spaces_at(text: &[u8]) -> Option<&[u8]>
    ensures rest { option_map (λ r. r.now) result ≡ spaces_at text.now }
    ensures shorter { IfSome result (λ r. length r.now < length text.now) }
{
    if !has_space(text) {
        return None;
    }
    match text {
        [_, rest @ ..] => Some(trim_front(rest)),
        [] => None,
    }
}

fn quote_at(text: &[u8]) -> Option<(u8, &[u8])>
    ensures quote { option_map (λ x. (x.0, x.1.now)) result ≡ quote_at text.now }
    ensures shorter { IfSome result (λ x. length x.1.now < length text.now) }
{
    match text {
        [c, rest @ ..] if *c == b'"' || *c == b'\'' => Some((*c, rest)),
        _ => None,
    }
}

/// A value between quotes in front, and what stands behind it.
#[tactic(auto, unfolding(crate::specs::Items::value_at))]
pub(crate) fn value_at(text: &[u8]) -> Option<(&[u8], &[u8])>
    ensures value { option_map (λ x. (x.0.now, x.1.now)) result ≡ value_at text.now }
    ensures shorter { IfSome result (λ x. length x.1.now < length text.now) }
{
    let (quote, rest) = quote_at(text)?;
    let (value, rest) = rest.split_at(plain_len(rest, quote));
    let rest = byte_at(rest, quote)?;
    Some((value, rest))
}

// Whether the first N bytes of two texts are the same.
#[inline(always)]
#[tactic(auto, using(crate::proofs::Windows::taken_same))]
fn same_front<const N: usize>(a: &[u8], b: &[u8]) -> bool
    requires long { N ≤ length a.now }
    requires some { N ≤ length b.now }
    ensures same { result ≡ is_equal (take N a.now) (take N b.now) }
{
    let Some((front, _)) = a.split_first_chunk::<N>() else {
        return false;
    };
    let Some((other, _)) = b.split_first_chunk::<N>() else {
        return false;
    };
    *front == *other
}

// Whether the last N bytes of two texts are the same.
#[inline(always)]
#[tactic(auto, using(crate::proofs::Windows::left_same))]
fn same_back<const N: usize>(a: &[u8], b: &[u8]) -> bool
    requires long { N ≤ length a.now }
    requires some { N ≤ length b.now }
    ensures same { result ≡ is_equal (drop (length a.now - N) a.now) (drop (length b.now - N) b.now) }
{
    let Some((_, back)) = a.split_last_chunk::<N>() else {
        return false;
    };
    let Some((_, other)) = b.split_last_chunk::<N>() else {
        return false;
    };
    *back == *other
}

// Whether two texts of one length are the same, by their first N bytes and their last N ones, between which none is
// left.
#[inline(always)]
#[tactic(auto, using(crate::proofs::Windows::first_window, crate::proofs::Windows::last_window))]
fn same_ends<const N: usize>(a: &[u8], b: &[u8]) -> bool
    requires even { length a.now ≡ length b.now }
    requires some { N ≤ length b.now }
    requires few { length b.now ≤ N + N }
    ensures same { result ≡ is_equal a.now b.now }
{
    if !same_front::<N>(a, b) {
        return false;
    }
    same_back::<N>(a, b)
}

// Whether two texts of one length are the same. Short ones, as names are, are compared by a few words of theirs, which
// may overlap.
#[inline(always)]
fn same_text(a: &[u8], b: &[u8]) -> bool
    requires even { length a.now ≡ length b.now }
    ensures same { result ≡ is_equal a.now b.now }
{
    let count = b.len();
    if count > 16 || count == 0 {
        return a == b;
    }
    if count >= 8 {
        return same_ends::<8>(a, b);
    }
    if count >= 4 {
        return same_ends::<4>(a, b);
    }
    if count >= 2 {
        return same_ends::<2>(a, b);
    }
    same_ends::<1>(a, b)
}

/// Whether two texts are the same.
#[inline(always)]
#[tactic(auto, using(crate::proofs::Fronts::unlike))]
pub fn is_equal(a: &[u8], b: &[u8]) -> bool
    ensures same { result ≡ is_equal a.now b.now }
{
    if a.len() != b.len() {
        return false;
    }
    same_text(a, b)
}

/// What stands behind a name, where the text begins with it.
#[inline(always)]
#[tactic(auto, using(crate::proofs::Windows::short_front, crate::proofs::Windows::name_some, crate::proofs::Windows::name_none))]
pub(crate) fn behind_name<'a>(text: &'a [u8], name: &[u8]) -> Option<&'a [u8]>
    ensures rest { option_map (λ r. r.now) result ≡ strip name.now text.now }
    ensures shorter { IfSome result (λ r. length r.now + length name.now ≤ length text.now) }
{
    if text.len() < name.len() {
        return None;
    }
    let (front, rest) = text.split_at(name.len());
    if !is_equal(front, name) {
        return None;
    }
    Some(rest)
}
