ghost use Rattle.std.specs.Prelude.{◌≡◌, ℕ, ◌+◌, ◌<◌, ◌≤◌, false, List, ◌∷◌, length, MatchResult};
ghost use Rattle.arrayvec.specs.ArrayVec.{array_vec_len};
ghost use Rattle.grammar.specs.Faults.{sign_byte, First};
ghost use Rattle.grammar.specs.Form.{most as top};
ghost use Rattle.grammar.specs.Machine.{Frame, fresh};
ghost use Rattle.layout.specs.Tree.{sort_of};
ghost use Rattle.grammar.specs.Written.{sign_of as sign_for};

use super::bracket::{least, link_in, most};
use super::branch::Branch;
use super::draft::Draft;
use super::look::{name_at, sort_at, stands};
use super::marks::marks_at;
use arrayvec::ArrayVec;
use grammar::{Marks, Refusal};
use layout::{Link, Sort};
use std::alloc::Global;
use text::Sign;

// How many leaves a text has at the most.
const LEAVES: usize = 128;

// How many brackets a text has at the most.
const BRACKETS: usize = 64;

// How many brackets stand one within the other at the most.
const DEPTH: u8 = 16;

/// A reader of a plan's text: the heap for its tree, the place that it has come to, and what it has read before.
#[derive(Drop)]
pub struct Reader<'a> {
    pub heap: Global,
    pub text: &'a [u8],
    pub at: usize,
    pub drafts: ArrayVec<Draft, LEAVES>,
    pub brackets: usize,
    ghost few: { array_vec_len drafts ≤ 128 },
}

impl<'a> Reader<'a> {
    ghost use Rattle.reader.specs.Reading.{Unread};

    /// A reader of which nothing was read.
    pub fn new(heap: Global, text: &'a [u8]) -> Reader<'a>
        ensures text { result.text.now ≡ text.now }
        ensures start { Unread result }
    {
        Reader {
            heap,
            text,
            at: 0,
            drafts: ArrayVec::new(),
            brackets: 0,
        }
    }
}

impl Reader<'_> {
    ghost use Rattle.reader.specs.Reading.{Noted, Steady, Here, Item, Plan, Plans, Unread, frame, spot, next, drafts_of, any};
    ghost use Rattle.reader.specs.Judged.{ReadWhole};

    // Notes one more leaf.
    fn note(&mut self, draft: Draft)
        requires { length (drafts_of self.old) < 128 }
        ensures { Noted draft self.old self.new }
    {
        self.drafts.push(draft);
    }

    // kept: `Steady` relates a reader before and after a step, so it can be no ghost field
    // A leaf; no bracket begins at the place.
    fn read_leaf(&mut self) -> Result<Branch, Refusal>
        requires within { self.old.at ≤ length self.old.text.now }
        requires item { sign_byte (next (spot self.old)) ≡ false }
        ensures steady { Steady self.old self.new }
        ensures read { (room : ℕ) (fs : List Frame) → Here (spot self.old) fs fresh → Item room fs self.old self.new result }
    {
        let at = self.at;
        if stands(self.text, at, Sign::Blank) {
            return self.read_blank();
        }
        let end = name_at(self.text, at).ok_or(Refusal::Form(at))?;
        if self.drafts.is_full() {
            return Err(Refusal::Many(at));
        }
        let (marks, to) = marks_at(self.text, end)?;
        self.note(Draft {
            at,
            end: Some(end),
            marks,
        });
        self.at = to;
        Ok(Branch::of_leaf(true))
    }

    // A `_`, which stands at the place.
    fn read_blank(&mut self) -> Result<Branch, Refusal>
        requires { next (spot self.old) ≡ 95 }
        ensures steady { Steady self.old self.new }
        ensures read { (room : ℕ) (fs : List Frame) → Here (spot self.old) fs fresh → Item room fs self.old self.new result }
    {
        let at = self.at;
        if self.drafts.is_full() {
            return Err(Refusal::Many(at));
        }
        self.note(Draft {
            at,
            end: None,
            marks: Marks::default(),
        });
        self.at = at + 1;
        Ok(Branch::of_leaf(false))
    }

    // An item: a leaf or a bracket, of which `room` may stand one within the other.
    #[cycle(reading)]
    fn read_item(&mut self, room: u8) -> Result<Branch, Refusal>
        requires within { self.old.at ≤ length self.old.text.now }
        ensures steady { Steady self.old self.new }
        ensures read { (fs : List Frame) → Here (spot self.old) fs fresh → length fs + room ≡ 16 → Item room fs self.old self.new result }
    {
        match sort_at(self.text, self.at) {
            Some(sort) => self.read_bracket(room, sort),
            None => self.read_leaf(),
        }
    }

    // A bracket, whose sign stands at the place.
    #[cycle(reading)]
    fn read_bracket(&mut self, room: u8, sort: Sort) -> Result<Branch, Refusal>
        requires sign { next (spot self.old) ≡ sign_for (sort_of sort) }
        requires within { self.old.at < length self.old.text.now }
        ensures steady { Steady self.old self.new }
        ensures read { (fs : List Frame) → Here (spot self.old) fs fresh → length fs + room ≡ 16 → Item room fs self.old self.new result }
    {
        if room == 0 {
            return Err(Refusal::Depth(self.at));
        }
        if self.brackets >= BRACKETS {
            return Err(Refusal::Many(self.at));
        }
        self.brackets += 1;
        self.at += 1;
        if !stands(self.text, self.at, Sign::Open) {
            return Err(Refusal::Form(self.at));
        }
        self.at += 1;
        let inner = self.read_plans(room - 1, sort, 1)?;
        Ok(inner.within(self.heap, sort))
    }

    // The plans of a bracket from the one of number `count` on, and its `)`.
    #[cycle(reading)]
    fn read_plans(&mut self, room: u8, sort: Sort, count: u8) -> Result<Branch, Refusal>
        requires within { self.old.at ≤ length self.old.text.now }
        requires some { 1 ≤ count }
        requires below { count ≤ top (sort_of sort) }
        ensures steady { Steady self.old self.new }
        ensures read { (fs : List Frame) → Here (spot self.old) (frame (sort_of sort) count ∷ fs) fresh → length fs + 1 + room ≡ 16 → Plans (sort_of sort) count room fs self.old self.new result }
    {
        let first = self.read_plan(room)?;
        if stands(self.text, self.at, Sign::Close) && count >= least(sort) {
            self.at += 1;
            return Ok(first);
        }
        if stands(self.text, self.at, Sign::Comma) && count < most(sort) {
            self.at += 1;
            let rest = self.read_plans(room, sort, count + 1)?;
            return Ok(first.joined(self.heap, link_in(sort), rest));
        }
        Err(Refusal::Form(self.at))
    }

    // A plan: items with `.` between them.
    #[cycle(reading)]
    fn read_plan(&mut self, room: u8) -> Result<Branch, Refusal>
        requires within { self.old.at ≤ length self.old.text.now }
        ensures steady { Steady self.old self.new }
        ensures read { (fs : List Frame) → Here (spot self.old) fs fresh → length fs + room ≡ 16 → Plan room fs self.old self.new result }
    {
        let first = self.read_item(room)?;
        if stands(self.text, self.at, Sign::Dot) {
            self.at += 1;
            let rest = self.read_plan(room)?;
            return Ok(first.joined(self.heap, Link::Then, rest));
        }
        Ok(first)
    }

    /// Reads the whole text, of which nothing was read before.
    pub fn read(&mut self) -> Result<Branch, Refusal>
        requires { Unread self.old }
        ensures same { self.new.text ≡ self.old.text }
        ensures within { self.new.at ≤ length self.new.text.now }
        ensures read { MatchResult result (λ b. ReadWhole self.old.text.now (drafts_of self.new) b) (λ f. First any self.old.text.now f) }
    {
        let plan = self.read_plan(DEPTH)?;
        if self.at < self.text.len() {
            return Err(Refusal::Form(self.at));
        }
        Ok(plan)
    }
}
