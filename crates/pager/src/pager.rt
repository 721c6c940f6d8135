//! A message on pages.

ghost use Rattle.std.specs.Prelude.{◌≡◌, ◌++◌, ◌≤◌, ◌-◌, drop, length, map, min, not};
ghost use Rattle.std.specs.Prelude.{slice_index_or};
ghost use Rattle.std.specs.Prelude.{true, IfOk, IsOk, OnOk, [], ◌<◌};
ghost use Rattle.std.specs.List.{list_all, position_from};
ghost use Rattle.mail_base.specs.Series.{plain_texts};
ghost use Rattle.people.specs.Expr.{finds, is_literal};
ghost use Rattle.pager.specs.Broken.{is_shown};
ghost use Rattle.pager.specs.Pager as spec;

use crate::breaker::Breaker;
use crate::breaking::{break_lines, make_room};
use crate::texts::Texts;
use mail_base::{Line, Lines, NoMemory, Series};
use people::Expr;
use std::alloc::Global;
use std::marker::Model;

/// A message on pages (Mutt's manual, "The Pager"). Its lines are numbered from 0; hidden quoted
/// lines have no number.
#[derive(Drop)]
pub struct Pager {
    texts: Texts,
    unquoted: Series<usize>,
    cols: usize,
    hidden: bool,
    top: usize,
    attachments: Lines,
}

impl Model for Pager {
    ghost use Rattle.pager.specs.Pager.{PlainPager};

    ghost Value = { PlainPager };

    ghost use Rattle.pager.specs.Fields.{IsPaged, plain_pager};

    ghost view = { plain_pager };

    ghost invariant = { λ p. IsPaged (plain_pager p) };
}

impl Pager {
    // A pager of lines and of the rows of the parts.
    pub(crate) fn over(
        alloc: Global,
        lines: &Lines,
        attachments: Lines,
        cols: usize,
    ) -> Result<Pager, NoMemory>
        requires { 2 ≤ cols }
        ensures { IfOk result
            (λ p. p ≡ spec.opened cols (plain_texts lines.now) (plain_texts attachments)) }
    {
        let mut breaker = Breaker::new(alloc, cols);
        let mut unquoted = Series::new(alloc);
        let list = lines.as_slice();
        make_room(&mut breaker, &mut unquoted, list)?;
        break_lines(&mut breaker, &mut unquoted, list)?;
        Ok(Pager {
            texts: breaker.into_texts(),
            unquoted,
            cols,
            hidden: false,
            top: 0,
            attachments,
        })
    }

    // The number of the last line, or 0, where quoted lines are hidden or shown.
    fn last(&self, hidden: bool) -> usize
        ensures { result ≡ spec.last_number (record self.now { hidden = hidden }) }
    {
        let count = if hidden {
            self.unquoted.len()
        } else {
            self.texts.len()
        };
        count.saturating_sub(1)
    }

    // How many lines have a number.
    fn len(&self) -> usize
        ensures { result ≡ length (spec.numbered self.now) }
    {
        if self.hidden {
            self.unquoted.len()
        } else {
            self.texts.len()
        }
    }

    // A line by its number; past the last it is empty.
    fn text(&self, number: usize) -> &[u8]
        ensures text { result.now ≡ slice_index_or (spec.numbered self.now) number [] }
        ensures shown { is_shown self.now.cols result.now ≡ true }
    {
        if !self.hidden {
            return self.texts.text(number);
        }
        match self.unquoted.get(number) {
            Some(place) => self.texts.text(*place),
            None => &[],
        }
    }

    // A line of the page; past the last it is empty.
    fn row(&self, row: usize) -> &[u8]
        ensures text { result.now
            ≡ slice_index_or (drop self.now.top (spec.numbered self.now)) row [] }
        ensures shown { is_shown self.now.cols result.now ≡ true }
    {
        if row < self.len() - self.top {
            self.text(self.top + row)
        } else {
            &[]
        }
    }

    // Adds so many lines of the page.
    fn push_rows(&self, alloc: Global, lines: &mut Lines, rows: usize) -> Result<(), NoMemory>
        requires { lines.old.items ≡ [] }
        ensures value { OnOk result (plain_texts lines.new ≡ spec.page rows self.now) }
        ensures shown { OnOk result
            (list_all (is_shown self.now.cols) (plain_texts lines.new) ≡ true) }
    {
        for row in 0..rows {
            lines.push(Line::copy_of(alloc, self.row(row))?)?;
        }
        Ok(())
    }

    /// So many lines from the top on; empty ones stand behind the last.
    pub fn lines(&self, alloc: Global, rows: u16) -> Result<Lines, NoMemory>
        ensures value { IfOk result (λ lines. plain_texts lines ≡ spec.page rows self.now) }
        ensures count { IfOk result (λ lines. length lines.items ≡ rows) }
        ensures shown { IfOk result
            (λ lines. list_all (is_shown self.now.cols) (plain_texts lines) ≡ true) }
    {
        let mut lines = Lines::new(alloc);
        self.push_rows(alloc, &mut lines, usize::from(rows))?;
        Ok(lines)
    }

    /// The first line of the page.
    pub fn top(&self) -> usize
        ensures top { result ≡ self.now.top }
        ensures within { result ≤ spec.last_number self.now }
    {
        self.top
    }

    /// Begins the page at a line, or at the last where there is no such line.
    pub fn scroll(&mut self, to: usize)
        ensures { self.new ≡ spec.scrolled to self.old }
    {
        self.top = to.min(self.last(self.hidden));
    }

    /// Hides the quoted lines, or shows them again (Mutt's manual, "toggle-quoted"). The top is cut
    /// to the last line.
    pub fn toggle_quoted(&mut self)
        ensures { self.new ≡ spec.toggled self.old }
    {
        let hidden = !self.hidden;
        self.top = self.top.min(self.last(hidden));
        self.hidden = hidden;
    }

    // The number of the first line from one on in which the expression is found.
    fn find_from(&self, expr: &Expr, from: usize) -> Result<Option<usize>, NoMemory>
        ensures value { IfOk result (λ found. found
            ≡ position_from (finds expr.now) from (drop from (spec.numbered self.now))) }
        ensures literal { is_literal expr.now ≡ true → IsOk result }
    {
        for number in from..self.len() {
            if expr.search(self.text(number))? {
                return Ok(Some(number));
            }
        }
        Ok(None)
    }

    /// The number of the first line behind one in which the expression is found.
    pub fn find(&mut self, expr: &mut Expr, after: usize) -> Result<Option<usize>, NoMemory>
        ensures value { IfOk result
            (λ found. found ≡ spec.found_behind expr.old after self.old) }
        ensures same { self.new ≡ self.old }
        ensures same_expr { expr.new ≡ expr.old }
        ensures literal { is_literal expr.old ≡ true → IsOk result }
    {
        if after >= self.len() {
            return Ok(None);
        }
        self.find_from(expr, after + 1)
    }

    /// The rows of the parts of the whole message, also in a pager of one part.
    pub fn attachments(&self, alloc: Global) -> Result<Lines, NoMemory>
        ensures { IfOk result (λ rows. plain_texts rows ≡ self.now.attachments) }
    {
        let mut rows = Lines::new(alloc);
        copy_lines(alloc, &mut rows, self.attachments.as_slice())?;
        Ok(rows)
    }
}

// Adds copies of lines.
fn copy_lines(alloc: Global, copies: &mut Lines, lines: &[Line]) -> Result<(), NoMemory>
    ensures { OnOk result
        (plain_texts copies.new ≡ plain_texts copies.old ++ map (λ line. line.items) lines.now) }
{
    for line in lines {
        copies.push(Line::copy_of(alloc, line.as_slice())?)?;
    }
    Ok(())
}
