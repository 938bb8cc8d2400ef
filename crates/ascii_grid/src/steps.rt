// What a token changes.
ghost use Rattle.std.specs.Prelude.{◌≡◌, ℕ, true, List, ◌≤◌, ◌<◌, ◌+◌, ◌*◌, ◌^◌, ◌++◌, ◌==◌, [], ◌∷◌, if◌then◌else◌};
ghost use Rattle.std.specs.Prelude.{IfOk, IfErr, OnOk, OnErr, Ok, false};
ghost use Rattle.ascii_grid.specs.Scanning.{has_value, Reaches, with_rows, with_read};
ghost use Rattle.ascii_grid.specs.Faults.{IsMemory};
ghost use Rattle.ascii_grid.specs.declared.head_parts.Stage.TheVariants.{AtKey, InBody};
ghost use Rattle.ascii_grid.specs.Scan.{IsBody, AreRowsAt, add_token};

use crate::faults::GridFault;
use crate::head_parts::{Found, Shape, Stage};
use crate::keys::{key_of, shape_of, with_value};
use crate::starts::Starts;
use crate::values::{is_body_start, value_in};

/// How many values the body has.
#[tactic(auto, using(crate::proofs::Products::product_small, crate::proofs::Products::product_some))]
pub fn needed(shape: &Shape) -> u64
    ensures value { result ≡ shape.now.w * shape.now.h }
    ensures some { 0 < result }
    ensures bound { result ≤ 2 ^ 44 }
{
    u64::from(shape.w.get()) * u64::from(shape.h.get())
}

// The column behind a column.
fn column_after(shape: &Shape, x: u32) -> u32
    requires { x < shape.now.w }
    ensures value { result ≡ (if x + 1 == shape.now.w then 0 else x + 1) }
    ensures within { result < shape.now.w }
{
    let w = shape.w.get();
    if x + 1 == w { 0 } else { x + 1 }
}

// Keeps the place of the first value of a row.
fn begin_row(x: u32, rows: &mut Starts, at: u64) -> Result<(), GridFault>
    ensures ok { OnOk result (rows.new ≡ (if x == 0 then rows.old ++ at ∷ [] else rows.old)) }
    ensures same { OnErr result (rows.new ≡ rows.old) }
    ensures memory { IfErr result IsMemory }
{
    if x == 0 {
        rows.push(at)?;
    }
    Ok(())
}

// Reads a token of the body, of which `n` were read; it is in column `x`.
#[tactic(auto, unfolding(crate::specs::Scan::step, crate::specs::Scan::body_step), using(crate::proofs::Bodies::body_next))]
fn add_value(
    shape: &Shape,
    n: &mut u64,
    x: &mut u32,
    rows: &mut Starts,
    at: u64,
    text: &[u8],
) -> Result<(), GridFault>
    requires { IsBody shape.now n.old x.old rows.old }
    ensures read { Reaches (with_read result (record { stage = InBody shape.now n.new x.new; rows = rows.new }))
        (add_token (record { stage = InBody shape.now n.old x.old; rows = rows.old })
        (record { at = at; text = text.now })) }
    ensures keeps { IsBody shape.now n.new x.new rows.new }
    ensures same { OnErr result (rows.new ≡ rows.old) }
{
    if *n == needed(shape) {
        return Err(GridFault::TooMany(at));
    }
    value_in(at, text)?;
    begin_row(*x, rows, at)?;
    *n += 1;
    *x = column_after(shape, *x);
    Ok(())
}

// Counts a token of the body that has a value, of which `n` were read; it is in column `x`.
#[tactic(auto, unfolding(crate::specs::Scan::step, crate::specs::Scan::body_step), using(crate::proofs::Bodies::body_next, crate::proofs::Fronts::counted))]
fn count_value(
    shape: &Shape,
    n: &mut u64,
    x: &mut u32,
    rows: &mut Starts,
    at: u64,
) -> Result<(), GridFault>
    requires { IsBody shape.now n.old x.old rows.old }
    ensures read { (text : List ℕ) → has_value text ≡ true →
        Reaches (with_read result (record { stage = InBody shape.now n.new x.new; rows = rows.new }))
        (add_token (record { stage = InBody shape.now n.old x.old; rows = rows.old })
        (record { at = at; text = text })) }
    ensures keeps { IsBody shape.now n.new x.new rows.new }
    ensures same { OnErr result (rows.new ≡ rows.old) }
{
    if *n == needed(shape) {
        return Err(GridFault::TooMany(at));
    }
    begin_row(*x, rows, at)?;
    *n += 1;
    *x = column_after(shape, *x);
    Ok(())
}

/// Counts a value of the body that isn't the first of its row, where one is to come. Whether it did.
#[tactic(auto, using(crate::proofs::Fronts::counted_later, crate::proofs::Bodies::body_later))]
pub fn count_later(shape: &Shape, n: &mut u64, x: &mut u32) -> bool
    requires { x.old < shape.now.w }
    ensures read { result ≡ true → (rows : List ℕ) (at : ℕ) (text : List ℕ) → has_value text ≡ true →
        add_token (record { stage = InBody shape.now n.old x.old; rows = rows }) (record { at = at; text = text })
        ≡ Ok (record { stage = InBody shape.now n.new x.new; rows = rows }) }
    ensures keeps { result ≡ true → (rows : List ℕ) → IsBody shape.now n.old x.old rows →
        IsBody shape.now n.new x.new rows }
    ensures count { result ≡ false → n.new ≡ n.old }
    ensures column { result ≡ false → x.new ≡ x.old }
{
    if *x == 0 || *n >= needed(shape) {
        return false;
    }
    *n += 1;
    *x = column_after(shape, *x);
    true
}

// What a token in a key's place says: a key, or the first value of the body.
#[tactic(auto, unfolding(crate::specs::Scan::step), using(crate::proofs::Bodies::body_begins))]
fn after_key(found: Found, rows: &mut Starts, at: u64, text: &[u8]) -> Result<Stage, GridFault>
    requires { rows.old ≡ [] }
    ensures read { Reaches (with_rows result rows.new) (add_token (record { stage = AtKey found; rows = rows.old })
        (record { at = at; text = text.now })) }
    ensures keeps { IfOk result (λ stage. AreRowsAt stage rows.new) }
    ensures same { IfErr result (λ _. rows.new ≡ rows.old) }
{
    if is_body_start(text) {
        let shape = shape_of(found)?;
        let mut n = 0;
        let mut x = 0;
        add_value(&shape, &mut n, &mut x, rows, at, text)?;
        return Ok(Stage::InBody(shape, n, x));
    }
    let key = key_of(text).ok_or(GridFault::BadToken(at))?;
    Ok(Stage::AtValue(found, key))
}

// Reads a token in a function of its own: what the head's tokens need on the stack isn't made for those of
// the body.
#[inline(never)]
#[tactic(auto, unfolding(crate::specs::Scan::step))]
fn add_any(stage: &mut Stage, rows: &mut Starts, at: u64, text: &[u8]) -> Result<(), GridFault>
    requires { AreRowsAt stage.old rows.old }
    ensures read { Reaches (with_read result (record { stage = stage.new; rows = rows.new }))
        (add_token (record { stage = stage.old; rows = rows.old }) (record { at = at; text = text.now })) }
    ensures keeps { AreRowsAt stage.new rows.new }
{
    match stage {
        Stage::InBody(shape, n, x) => add_value(shape, n, x, rows, at, text),
        Stage::AtKey(found) => {
            *stage = after_key(*found, rows, at, text)?;
            Ok(())
        }
        Stage::AtValue(found, key) => {
            *stage = Stage::AtKey(with_value(*found, *key, at, text)?);
            Ok(())
        }
    }
}

/// Reads a token.
#[tactic(auto, unfolding(crate::specs::Scan::step))]
pub fn add_token(
    stage: &mut Stage,
    rows: &mut Starts,
    at: u64,
    text: &[u8],
) -> Result<(), GridFault>
    requires { AreRowsAt stage.old rows.old }
    ensures read { Reaches (with_read result (record { stage = stage.new; rows = rows.new }))
        (add_token (record { stage = stage.old; rows = rows.old }) (record { at = at; text = text.now })) }
    ensures keeps { AreRowsAt stage.new rows.new }
{
    if let Stage::InBody(shape, n, x) = stage {
        return add_value(shape, n, x, rows, at, text);
    }
    add_any(stage, rows, at, text)
}

/// Reads a token that has a value, without looking at it where it is one of the body.
#[tactic(auto, unfolding(crate::specs::Scan::step))]
pub fn add_number(
    stage: &mut Stage,
    rows: &mut Starts,
    at: u64,
    text: &[u8],
) -> Result<(), GridFault>
    requires at { AreRowsAt stage.old rows.old }
    requires value { has_value text.now ≡ true }
    ensures read { Reaches (with_read result (record { stage = stage.new; rows = rows.new }))
        (add_token (record { stage = stage.old; rows = rows.old }) (record { at = at; text = text.now })) }
    ensures keeps { AreRowsAt stage.new rows.new }
{
    if let Stage::InBody(shape, n, x) = stage {
        return count_value(shape, n, x, rows, at);
    }
    add_any(stage, rows, at, text)
}
