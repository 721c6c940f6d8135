//! How a view's tables of people, aliases and scores change.

use crate::view::{View, answers_over};
use folder_letters::Archive;
use index_items::keep;
use mail_base::{Bytes, NoMemory};
use patterns_match::{Pattern, ScoreError, Scores};
use people::{Expr, PeopleTable};

impl View {
    ghost use Rattle.std.specs.Prelude.{◌≡◌, ◌++◌, ◌∷◌, [], List, length, map, option_map, OnErr};
    ghost use Rattle.std.specs.Prelude.{OnOk};
    ghost use Rattle.folder_letters.specs.Letters.{Mail, plain_letter};
    ghost use Rattle.index_items.specs.Items.{numbers};
    ghost use Rattle.index_items.specs.Kept.{kept};
    ghost use Rattle.index_listed.specs.Heads.{AreHeads, AreWithin};
    ghost use Rattle.index_view.specs.View as spec;
    ghost use Rattle.patterns_match.specs.Pattern.{pattern_tree};
    ghost use Rattle.patterns_match.specs.ScoreEntries.{held_entries};
    ghost use Rattle.patterns_match.specs.Scores as scores;
    ghost use Rattle.people.specs.People.{with_alias, with_expr};

    // Works all out from scratch for the tables that stand there.
    fn judge(&mut self, archive: &Archive) -> Result<(), NoMemory>
        requires heads { AreHeads self.old.heads (map plain_letter archive.now.items) }
        requires within { AreWithin (length self.old.heads) (numbers self.old.items) }
        requires apart { spec.AreApart self.old.items }
        ensures ok { OnOk result (spec.Turned (map plain_letter archive.now.items)
            self.old self.new (spec.facts_of self.old)) }
        ensures err { OnErr result (self.new ≡ self.old) }
    {
        let answers = answers_over(
            self.alloc,
            self.options,
            &mut self.tables,
            &self.heads,
            archive,
            self.items.as_slice(),
        )?;
        self.turn(answers);
        Ok(())
    }

    /// Adds an expression to a table of people.
    pub fn add_person(
        &mut self,
        archive: &Archive,
        table: PeopleTable,
        expr: Expr,
    ) -> Result<(), NoMemory>
        requires { spec.IsOf (map plain_letter archive.now.items) self.old }
        ensures ok { OnOk result (spec.Turned (map plain_letter archive.now.items) self.old self.new
            (record (spec.facts_of self.old) { people = with_expr self.old.people table expr })) }
        ensures err { OnErr result (self.new ≡ self.old) }
    {
        self.tables.people.add(table, expr)?;
        let judged = self.judge(archive);
        if judged.is_err() {
            self.tables.people.drop_last(table);
        }
        judged
    }

    /// Gives a name its value, in place of the one that it has.
    pub fn add_alias(&mut self, name: &[u8], value: &[u8]) -> Result<(), NoMemory>
        ensures ok { OnOk result (self.new
            ≡ record self.old { aliases = with_alias self.old.aliases name.now value.now }) }
        ensures err { OnErr result (self.new ≡ self.old) }
        ensures is_of { (mails : List Mail) → spec.IsOf mails self.old → spec.IsOf mails self.new }
    {
        self.aliases.alias(name, value)
    }

    /// What a name stands for.
    pub fn expand_alias(&self, name: &[u8]) -> Option<&Bytes>
        ensures { option_map (λ b. b.now.items) result ≡ spec.alias_in self.now name.now }
    {
        self.aliases
            .expand_alias(name)
            .or_else(|| self.tables.people.expand_alias(name))
    }

    /// Adds what the messages that satisfy a pattern score.
    pub fn add_score(
        &mut self,
        archive: &Archive,
        pattern: Pattern,
        value: i64,
        last: bool,
    ) -> Result<(), ScoreError>
        requires { spec.IsOf (map plain_letter archive.now.items) self.old }
        ensures ok { OnOk result (spec.Turned (map plain_letter archive.now.items) self.old self.new
            (record (spec.facts_of self.old) {
              scores = held_entries self.old.scores
                  ++ scores.plain_entry pattern value last ∷ [];
            })) }
        ensures err { OnErr result (spec.IsSame self.old self.new) }
        ensures cause { scores.Answers result
            (scores.refusal (pattern_tree pattern) value (length self.old.scores)) }
    {
        self.tables.scores.add(pattern, value, last)?;
        match self.judge(archive) {
            Ok(()) => Ok(()),
            Err(error) => {
                self.tables.scores.entries.pop();
                Err(error.into())
            }
        }
    }

    /// Keeps the entries of scores that are marked. What want of memory leaves is open.
    pub fn keep_scores(&mut self, archive: &Archive, marks: &[bool]) -> Result<(), NoMemory>
        requires { spec.IsOf (map plain_letter archive.now.items) self.old }
        ensures { OnOk result (spec.Turned (map plain_letter archive.now.items) self.old self.new
            (record (spec.facts_of self.old) {
              scores = kept marks.now (held_entries self.old.scores);
            })) }
    {
        keep(&mut self.tables.scores.entries, marks);
        self.judge(archive)
    }

    /// Takes all entries of scores away.
    pub fn drop_scores(&mut self, archive: &Archive) -> Result<(), NoMemory>
        requires { spec.IsOf (map plain_letter archive.now.items) self.old }
        ensures ok { OnOk result (spec.Turned (map plain_letter archive.now.items) self.old self.new
            (record (spec.facts_of self.old) { scores = [] })) }
        ensures err { OnErr result (self.new ≡ self.old) }
    {
        let none = Scores::new(self.alloc);
        let old = std::mem::replace(&mut self.tables.scores, none);
        match self.judge(archive) {
            Ok(()) => Ok(()),
            Err(error) => {
                self.tables.scores = old;
                Err(error)
            }
        }
    }
}
