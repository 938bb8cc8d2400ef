// The scanner of a grid's text.
ghost use Rattle.std.specs.Prelude.{◌≡◌, ℕ, [], ◌∷◌, ◌++◌, List, Ok, Err, IfOk, length, take, get_or, true, false, ◌<◌};
ghost use Rattle.std.specs.Prelude.{◌≤◌, ◌+◌, ◌*◌};
ghost use Rattle.lists_and_answers.specs.Answers.{Gives};
ghost use Rattle.lists_and_answers.specs.Texts.{is_white};
ghost use Rattle.ascii_grid.specs.Faults.{IsMemory};
ghost use Rattle.ascii_grid.specs.Grid.{grid_head, head_with, IsHead};
ghost use Rattle.ascii_grid.specs.Scanning.{longest_token, has_value, Reaches, grid_after, with_read, body_closed};
ghost use Rattle.ascii_grid.specs.Scanning.{closed};
ghost use Rattle.ascii_grid.specs.declared.head_parts.Stage.TheVariants.{AtKey};
ghost use Rattle.lists_and_answers.specs.Places.{StandsAt};
ghost use Rattle.ascii_grid.specs.Scan.{State, then_byte, fed, start, answer_of, AreRowsAt, ended, Reads, IsFaultOf};
ghost use Rattle.ascii_grid.specs.Scan.{HasScanned, IsFaultIn};

use crate::faults::GridFault;
use crate::head::GridHead;
use crate::head_parts::{Found, Shape, Stage};
use crate::keys::{set_value, shape_of};
use crate::open::Open;
use crate::pairs::pair_at;
use crate::starts::Starts;
use crate::steps::{add_number, add_token, count_later, needed};
use crate::tokens::{LONGEST_TOKEN, dark_len, white_len};
use crate::values::value_at;
use geotransform::Size;
use lists_and_answers::is_white;
use std::alloc::Global;
use std::marker::Model;

/// Reads a grid's text in pieces, as the bytes that were fed so far. It keeps the place of each row and
/// the last token, which is still open, and nothing else that grows.
#[derive(Drop)]
pub struct Scanner {
    fault: Option<GridFault>,
    held: Open,
    stage: Stage,
    rows: Starts,
}

impl Model for Scanner {
    ghost use Rattle.ascii_grid.specs.Scan.{Scanned, scanned, AreRowsAt};

    ghost Value = { Scanned };

    ghost view = { λ s. scanned s.fault s.held s.stage s.rows };

    ghost invariant = { λ s. AreRowsAt s.stage s.rows };
}

impl Scanner {
    /// Nothing was fed. It takes no memory.
    #[tactic(auto, using(crate::proofs::Files::nothing_scanned))]
    pub fn new(alloc: Global) -> Scanner
        ensures state { result ≡ Ok start }
        ensures reads { Reads result [] }
        ensures scanned { (file : List ℕ) → HasScanned result file 0 }
    {
        Scanner {
            fault: None,
            held: Open::new(),
            stage: Stage::AtKey(Found {
                ncols: None,
                nrows: None,
                x: None,
                y: None,
                cellsize: None,
                dx: None,
                dy: None,
                nodata: None,
            }),
            rows: Starts::new(alloc),
        }
    }

    // Takes a byte.
    #[tactic(auto, unfolding(crate::specs::Scan::add_byte))]
    fn add(&mut self, c: u8)
        ensures state { Reaches self.new (then_byte self.old c) }
        ensures stays { (f : GridFault) → self.old ≡ Err f → self.new ≡ Err f }
    {
        if self.fault.is_some() {
            return;
        }
        if !is_white(c) {
            self.held.push(c);
            return;
        }
        match ended(&mut self.stage, &mut self.rows, &self.held) {
            Ok(()) => self.held.pass(),
            Err(fault) => self.fault = Some(fault),
        }
    }

    // Whether all is well so far.
    fn answer(&self) -> Result<(), GridFault>
        ensures { result ≡ answer_of self.now }
    {
        match self.fault {
            None => Ok(()),
            Some(fault) => Err(fault),
        }
    }

    // Takes a whole token, where none is open, and a byte of white space behind it.
    fn add_whole(&mut self, token: &[u8])
        requires some { 0 < length token.now }
        requires few { length token.now ≤ longest_token }
        requires dark { (k : ℕ) → k < length token.now → is_white (get_or token.now k 0) ≡ false }
        requires closed { (s : State) → self.old ≡ Ok s → s.held.text ≡ [] }
        ensures state { (c : ℕ) → is_white c ≡ true → Reaches self.new (fed self.old (token.now ++ c ∷ [])) }
        ensures stays { (f : GridFault) → self.old ≡ Err f → self.new ≡ Err f }
    {
        if self.fault.is_some() {
            return;
        }
        let at = self.held.place();
        match add_token(&mut self.stage, &mut self.rows, at, token) {
            Ok(()) => self.held.pass_token(token.len()),
            Err(fault) => self.fault = Some(fault),
        }
    }

    // Takes a whole token that has a value, where none is open, and a byte of white space behind it.
    fn add_number(&mut self, token: &[u8])
        requires some { 0 < length token.now }
        requires few { length token.now ≤ longest_token }
        requires dark { (k : ℕ) → k < length token.now → is_white (get_or token.now k 0) ≡ false }
        requires value { has_value token.now ≡ true }
        requires closed { (s : State) → self.old ≡ Ok s → s.held.text ≡ [] }
        ensures state { (c : ℕ) → is_white c ≡ true → Reaches self.new (fed self.old (token.now ++ c ∷ [])) }
        ensures stays { (f : GridFault) → self.old ≡ Err f → self.new ≡ Err f }
    {
        if self.fault.is_some() {
            return;
        }
        let at = self.held.place();
        match add_number(&mut self.stage, &mut self.rows, at, token) {
            Ok(()) => self.held.pass_token(token.len()),
            Err(fault) => self.fault = Some(fault),
        }
    }

    // Takes white space, where no token is open.
    fn add_white(&mut self, white: &[u8])
        requires some { 0 < length white.now }
        requires white { (k : ℕ) → k < length white.now → is_white (get_or white.now k 0) ≡ true }
        requires closed { (s : State) → self.old ≡ Ok s → s.held.text ≡ [] }
        ensures state { self.new ≡ fed self.old white.now }
        ensures stays { (f : GridFault) → self.old ≡ Err f → self.new ≡ Err f }
    {
        self.held.pass_white(white.len());
    }

    // Takes a key and its value with a byte of white space behind them, or else the white space in front, where no
    // token is open. How many bytes it took, 0 where something else stands there.
    fn add_pair(&mut self, bytes: &[u8]) -> usize
        ensures within { result ≤ length bytes.now }
        ensures state { self.new ≡ fed self.old (take result bytes.now) }
        ensures stays { (f : GridFault) → self.old ≡ Err f → self.new ≡ Err f }
    {
        if self.fault.is_some() {
            return 0;
        }
        if self.held.is_open() {
            return 0;
        }
        if let Stage::AtKey(found) = &mut self.stage {
            if let Some(pair) = pair_at(bytes) {
                let at = self.held.place_behind(pair.from);
                match set_value(found, pair.key, at, &bytes[pair.from..pair.end]) {
                    Ok(()) => self.held.pass_token_at(at, pair.end - pair.from),
                    Err(fault) => self.fault = Some(fault),
                }
                return pair.end + 1;
            }
            let n = white_len(bytes);
            if n > 0 {
                self.add_white(&bytes[..n]);
                return n;
            }
        }
        0
    }

    // Takes keys and their values, and all white space behind them, as long as they stand in front, in a function of
    // its own: what they need in registers isn't taken from the body's values. How many bytes it took.
    #[inline(never)]
    fn add_pairs(&mut self, bytes: &[u8]) -> usize
        ensures within { result ≤ length bytes.now }
        ensures state { self.new ≡ fed self.old (take result bytes.now) }
        ensures stays { (f : GridFault) → self.old ≡ Err f → self.new ≡ Err f }
    {
        let mut at = 0;
        while at < bytes.len() {
            let taken = self.add_pair(&bytes[at..]);
            if taken == 0 {
                return at;
            }
            at += taken;
        }
        at
    }

    // Takes pairs of the head in front, where the scanner stands at a key, and answers how many bytes they have.
    fn add_head(&mut self, bytes: &[u8]) -> usize
        ensures within { result ≤ length bytes.now }
        ensures state { self.new ≡ fed self.old (take result bytes.now) }
        ensures stays { (f : GridFault) → self.old ≡ Err f → self.new ≡ Err f }
    {
        match &self.stage {
            Stage::AtKey(_) => self.add_pairs(bytes),
            _ => 0,
        }
    }

    // Takes a value that isn't the first of its row, with a byte of white space behind it, or else the white space in
    // front, where no token is open. How many bytes it took, 0 where something else stands there.
    fn add_later(&mut self, bytes: &[u8]) -> usize
        ensures within { result ≤ length bytes.now }
        ensures state { self.new ≡ fed self.old (take result bytes.now) }
        ensures stays { (f : GridFault) → self.old ≡ Err f → self.new ≡ Err f }
    {
        if self.fault.is_some() {
            return 0;
        }
        if self.held.is_open() {
            return 0;
        }
        if let Stage::InBody(shape, n, x) = &mut self.stage {
            if *x == 0 {
                return 0;
            }
            if let Some((len, _)) = value_at(bytes) {
                if count_later(shape, n, x) {
                    self.held.pass_token(len);
                    return len + 1;
                }
                return 0;
            }
            let white = white_len(bytes);
            if white > 0 {
                self.add_white(&bytes[..white]);
                return white;
            }
        }
        0
    }

    // Takes the values of a row behind its first one, as long as they stand in front, in a function of its own: what
    // other tokens need on the stack isn't made for them. How many bytes it took.
    #[inline(never)]
    fn add_values(&mut self, bytes: &[u8]) -> usize
        ensures within { result ≤ length bytes.now }
        ensures state { self.new ≡ fed self.old (take result bytes.now) }
        ensures stays { (f : GridFault) → self.old ≡ Err f → self.new ≡ Err f }
    {
        let mut at = 0;
        while at < bytes.len() {
            let taken = self.add_later(&bytes[at..]);
            if taken == 0 {
                return at;
            }
            at += taken;
        }
        at
    }

    // So where a row was begun and isn't at its end.
    fn add_rest(&mut self, bytes: &[u8]) -> usize
        ensures within { result ≤ length bytes.now }
        ensures state { self.new ≡ fed self.old (take result bytes.now) }
        ensures stays { (f : GridFault) → self.old ≡ Err f → self.new ≡ Err f }
    {
        match &self.stage {
            Stage::InBody(_, _, x) if *x > 0 => self.add_values(bytes),
            _ => 0,
        }
    }

    // Takes the first of these bytes: white space, or a whole token with the white space behind it, where
    // none is open, else one byte. Behind a value it takes those of its row, too. How many it took.
    fn add_part(&mut self, bytes: &[u8]) -> usize
        requires { 0 < length bytes.now }
        ensures some { 0 < result }
        ensures within { result ≤ length bytes.now }
        ensures state { Reaches self.new (fed self.old (take result bytes.now)) }
        ensures stays { (f : GridFault) → self.old ≡ Err f → self.new ≡ Err f }
    {
        if self.fault.is_none() && !self.held.is_open() {
            if let Some((n, _)) = value_at(bytes) {
                self.add_number(&bytes[..n]);
                return n + 1 + self.add_rest(&bytes[n + 1..]);
            }
            let n = white_len(bytes);
            if n > 0 {
                self.add_white(&bytes[..n]);
                return n;
            }
            let taken = self.add_head(bytes);
            if taken > 0 {
                return taken;
            }
            let n = dark_len(bytes);
            if n > 0 && n <= LONGEST_TOKEN && n < bytes.len() {
                self.add_whole(&bytes[..n]);
                return n + 1;
            }
        }
        self.add(bytes[0]);
        1
    }

    // Takes the bytes of a piece.
    fn take(&mut self, bytes: &[u8])
        ensures state { Reaches self.new (fed self.old bytes.now) }
        ensures stays { (f : GridFault) → self.old ≡ Err f → self.new ≡ Err f }
    {
        let mut at = 0;
        while at < bytes.len() {
            at += self.add_part(&bytes[at..]);
        }
    }

    // Reads a piece.
    #[tactic(auto, using(crate::proofs::Whole::reads_more))]
    fn read(&mut self, bytes: &[u8]) -> Result<(), GridFault>
        ensures reads { (text : List ℕ) → Reads self.old text → Reads self.new (text ++ bytes.now) }
        ensures fault { (text : List ℕ) (f : GridFault) → Reads self.old text → result ≡ Err f →
            IsFaultOf f (text ++ bytes.now) }
        ensures stays { (f : GridFault) → self.old ≡ Err f → self.new ≡ Err f }
        ensures answer { result ≡ answer_of self.new }
    {
        self.take(bytes);
        self.answer()
    }

    /// Takes the next piece of the text, of any length. A fault is answered once its token has ended, and
    /// it is the first of all bytes fed, however they were cut: an unknown key, a value that isn't of its
    /// form or a token past 64 bytes is BadToken, a decimal number in the body that isn't whole is
    /// NotInteger, a token behind the last value is TooMany; a number past its limit or a geotransform out
    /// of range is Limit, and a head without a key that it needs is MissingKey. After a refusal it is
    /// the same fault from then on. Memory comes freely, where a row's place can't be kept.
    pub fn feed(&mut self, bytes: &[u8]) -> Result<(), GridFault>
        // what was fed goes on with these bytes
        ensures reads { (text : List ℕ) → Reads self.old text → Reads self.new (text ++ bytes.now) }
        // a fault is that of all bytes, and stays
        ensures fault { (text : List ℕ) (f : GridFault) → Reads self.old text → result ≡ Err f →
            IsFaultOf f (text ++ bytes.now) }
        ensures stays { (f : GridFault) → self.old ≡ Err f → self.new ≡ Err f }
        ensures answer { result ≡ answer_of self.new }
        // the pieces of a file
        ensures more { (file : List ℕ) (at : ℕ) → HasScanned self.old file at → StandsAt file bytes.now at →
            HasScanned self.new file (at + length bytes.now) }
        ensures refused { (file : List ℕ) (at : ℕ) (f : GridFault) → HasScanned self.old file at →
            StandsAt file bytes.now at → result ≡ Err f → IsFaultIn f file }
    {
        self.read(bytes)
    }

    // What was read, where the text ends here.
    #[tactic(auto, unfolding(crate::specs::Scanning::finished), using(crate::proofs::Bodies::closed_rows))]
    fn end(mut self) -> Result<GridHead, GridFault>
        ensures answer { Reaches result (grid_after self) }
        ensures stays { (f : GridFault) → self ≡ Err f → result ≡ Err f }
    {
        if let Some(fault) = self.fault {
            return Err(fault);
        }
        ended(&mut self.stage, &mut self.rows, &self.held)?;
        let shape = closed(self.stage)?;
        Ok(head_of(shape, self.rows))
    }

    /// The head of the grid that was fed, or the first fault of all bytes. After a refusal it is the same
    /// fault.
    pub fn finish(self) -> Result<GridHead, GridFault>
        ensures grid { (text : List ℕ) → Reads self text → Gives IsMemory (λ h. h) result (grid_head text) }
        ensures whole { (file : List ℕ) (at : ℕ) → HasScanned self file at → length file ≤ at →
            Gives IsMemory (λ h. h) result (grid_head file) }
        ensures kept { IfOk result IsHead }
        ensures stays { (f : GridFault) → self ≡ Err f → result ≡ Err f }
    {
        self.end()
    }
}

// Reads the token that is open, where one is.
fn ended(stage: &mut Stage, rows: &mut Starts, held: &Open) -> Result<(), GridFault>
    requires { AreRowsAt stage.old rows.old }
    ensures read { Reaches (with_read result (record { stage = stage.new; rows = rows.new }))
        (ended (record { held = held.now; read = record { stage = stage.old; rows = rows.old } })) }
    ensures keeps { AreRowsAt stage.new rows.new }
{
    if held.is_open() {
        add_token(stage, rows, held.begun(), held.text())
    } else {
        Ok(())
    }
}

// What a body of `n` values says at its end.
fn body_closed(shape: Shape, n: u64) -> Result<Shape, GridFault>
    ensures value { result ≡ body_closed shape n }
    ensures some { IfOk result (λ s. 0 < s.w * s.h) }
{
    if n == needed(&shape) {
        Ok(shape)
    } else {
        Err(GridFault::TooFew)
    }
}

// What a head without a body says at the text's end.
#[tactic(auto, unfolding(crate::specs::Scanning::closed))]
fn head_closed(found: Found) -> Result<Shape, GridFault>
    ensures value { result ≡ closed (AtKey found) }
    ensures some { IfOk result (λ s. 0 < s.w * s.h) }
{
    match shape_of(found) {
        Ok(shape) => body_closed(shape, 0),
        Err(fault) => Err(fault),
    }
}

// What the head and the body say where the text ends here.
#[tactic(auto, unfolding(crate::specs::Scanning::closed))]
fn closed(stage: Stage) -> Result<Shape, GridFault>
    ensures value { result ≡ closed stage }
    ensures some { IfOk result (λ s. 0 < s.w * s.h) }
{
    match stage {
        Stage::AtKey(found) => head_closed(found),
        Stage::AtValue(found, _) => head_closed(found),
        Stage::InBody(shape, n, _) => body_closed(shape, n),
    }
}

// The head of a raster whose rows begin at these places.
fn head_of(shape: Shape, rows: Starts) -> GridHead
    requires { length rows ≡ shape.h }
    ensures { result ≡ head_with shape rows }
{
    GridHead {
        size: Size {
            w: shape.w.get(),
            h: shape.h.get(),
        },
        geo: shape.geo,
        nodata: shape.nodata.map(|n| n.get()),
        rows,
    }
}
