//! The line of a replica.

ghost use Rattle.std.specs.Prelude.{◌≡◌, ◌++◌, Some, OnOk, OnErr};
ghost use Rattle.cg_base.specs.Fronts.{KeepsFront};
ghost use Rattle.cg_report.specs.LineText.{state_text, phase_text, prim_text, vulnerable_text, yellow_text, view_text, up_text, line_text};

use crate::page::{HasFront, Page};
use crate::putting_line::put_line_text;
use crate::{Line, ShownPhase, StateName, UpLine, View};
use cg_base::NoMemory;
use cg_records::{Primary, Vulnerable, Yellow};
use std::fmt;
use std::fmt::{Display, Formatter, Write};
use std::marker::Brand;
use std::mem::replace;

impl Display for StateName {
    ghost output = { λ state. Some (state_text state) };

    fn fmt<W: Write>(&self, f: &mut Formatter<W>) -> fmt::Result {
        match self {
            StateName::RegPrim => f.write_str("RegPrim"),
            StateName::TransPrim => f.write_str("TransPrim"),
            StateName::ExchangeStates => f.write_str("ExchangeStates"),
            StateName::ExchangeActions => f.write_str("ExchangeActions"),
            StateName::Construct => f.write_str("Construct"),
            StateName::No => f.write_str("No"),
            StateName::Un => f.write_str("Un"),
            StateName::NonPrim => f.write_str("NonPrim"),
            StateName::Left => f.write_str("Left"),
        }
    }
}

/// As `c2` and `t2`, with the configuration's number, and `-` alone.
impl Display for ShownPhase {
    ghost output = { λ phase. Some (phase_text phase) };

    fn fmt<W: Write>(&self, f: &mut Formatter<W>) -> fmt::Result {
        match self {
            ShownPhase::Alone => f.write_str("-"),
            ShownPhase::Regular(conf) => write!(f, "c{conf}"),
            ShownPhase::Transitional(conf) => write!(f, "t{conf}"),
        }
    }
}

// a primary component, as `p1@2{1,2}`
#[derive(Clone, Copy)]
struct PrimText<'a>(&'a Primary);

impl Display for PrimText<'_> {
    ghost output = { λ last. Some (prim_text last.0.now) };

    fn fmt<W: Write>(&self, f: &mut Formatter<W>) -> fmt::Result {
        write!(f, "p{}@{}{}", self.0.index, self.0.conf, &self.0.set)
    }
}

// the record of an attempt
#[derive(Clone, Copy)]
struct VulnerableText<'a>(&'a Option<Vulnerable>);

impl Display for VulnerableText<'_> {
    ghost output = { λ attempt. Some (vulnerable_text attempt.0.now) };

    fn fmt<W: Write>(&self, f: &mut Formatter<W>) -> fmt::Result {
        match self.0 {
            None => f.write_str("v-"),
            Some(v) => write!(f, "v{}/{}{}{}", v.attempt, v.from, v.set, v.bits),
        }
    }
}

// a yellow list
#[derive(Clone, Copy)]
struct YellowText<'a>(&'a Yellow);

impl Display for YellowText<'_> {
    ghost output = { λ names. Some (yellow_text names.0.now) };

    fn fmt<W: Write>(&self, f: &mut Formatter<W>) -> fmt::Result {
        let list = &self.0.list;
        if self.0.valid {
            return write!(f, "y!{list}");
        }
        if list.is_empty() {
            return f.write_str("y-");
        }
        write!(f, "y?{list}")
    }
}

/// What stands in a line behind the phase.
impl Display for View {
    ghost output = { λ view. Some (view_text view) };

    fn fmt<W: Write>(&self, f: &mut Formatter<W>) -> fmt::Result {
        let (green, white) = (self.green_count, self.white_count);
        let (prim, attempt) = (PrimText(&self.prim), self.attempt_index);
        let record = VulnerableText(&self.vulnerable);
        write!(f, "g{green} w{white} {prim} a{attempt} {record}")?;
        let (yellow, left) = (YellowText(&self.yellow), self.left);
        let (reds, own, buffered) = (&self.reds, &self.own, self.buffered);
        write!(f, " {yellow} r{reds} o{own} x{left} b{buffered}")
    }
}

/// What stands in a line behind the identifier.
impl Display for UpLine {
    ghost output = { λ up. Some (up_text (Some up)) };

    fn fmt<W: Write>(&self, f: &mut Formatter<W>) -> fmt::Result {
        write!(f, "{} {} {}", self.state, self.phase, &self.view)
    }
}

/// The line, without its end.
impl Display for Line {
    ghost output = { λ line. Some (line_text line) };

    fn fmt<W: Write>(&self, f: &mut Formatter<W>) -> fmt::Result {
        match &self.up {
            None => write!(f, "{} Down", self.id),
            Some(up) => write!(f, "{} {up}", self.id),
        }
    }
}

/// The line of a replica, without its end. Where memory is refused nothing is put.
pub fn put_line(out: &mut Vec<u8>, line: &Line) -> Result<(), NoMemory>
    ensures ok { OnOk result (out.new.items ≡ out.old.items ++ line_text line.now) }
    ensures err { OnErr result (out.new.items ≡ out.old.items) }
{
    let count = out.len();
    let none = Vec::new(*out.allocator());
    let (bytes, result) = line_behind::<Brand>(replace(out, none), line);
    *out = bytes;
    if result.is_err() {
        out.truncate(count);
    }
    result
}

fn line_behind<F: HasFront>(bytes: Vec<u8>, line: &Line) -> (Vec<u8>, Result<(), NoMemory>)
    requires { bytes.items ≡ F.front }
    ensures ok { OnOk result.1 (result.0.items ≡ bytes.items ++ line_text line.now) }
    ensures front { KeepsFront bytes.items result.0.items }
{
    let mut page: Page<F> = Page::behind(bytes);
    let result = put_line_text(&mut page, line);
    (page.into_bytes(), result)
}
