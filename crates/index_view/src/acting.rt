//! How acts change a view in place.

ghost use Rattle.std.specs.Prelude.{◌≡◌, true, map};
ghost use Rattle.folder_letters.specs.Letters.{plain_letter};
ghost use Rattle.index_items.specs.Acts.{acted_all};
ghost use Rattle.index_view.specs.Acting as spec;
ghost use Rattle.index_view.specs.Staying.{is_still, touched};
ghost use Rattle.index_view.specs.View.{AreApart, IsOf, Turned, facts_of};

use crate::answers::Answers;
use crate::view::View;
use folder_letters::Archive;
use index_items::{Act, Items};
use mail_base::Id;

// Does this to messages, one after the other; each one's row shows it as it stands then.
fn act_in_place(items: &mut Items, answers: &mut Answers, act: Act, ids: &[Id])
    requires apart { AreApart items.old }
    requires shown { spec.RowsShow items.old answers.old.rows }
    ensures items { items.new ≡ acted_all act ids.now items.old }
    ensures shown { spec.RowsShow items.new answers.new.rows }
    ensures alike { spec.AreAlike answers.new.rows answers.old.rows }
    ensures others { answers.new ≡ record answers.old { rows = answers.new.rows } }
{
    let mut left = ids;
    while let Some((first, rest)) = left.split_first() {
        if let Some(place) = answers.place(*first) {
            let item = items.act(place, act);
            answers.remark(place, item);
        }
        left = rest;
    }
}

impl View {
    ghost use Rattle.std.specs.Prelude.{◌≡◌, true, map};
    ghost use Rattle.folder_letters.specs.Letters.{plain_letter};
    ghost use Rattle.index_items.specs.Acts.{acted_all};
    ghost use Rattle.index_view.specs.Staying.{is_still, touched};
    ghost use Rattle.index_view.specs.View.{IsOf, Turned, facts_of};

    /// Does this to messages, one after the other, where the limit does not look at what is done,
    /// and no entry of scores at flags, marks of deletion and tags. It takes no memory, and looks
    /// at no other message but for which threads have unread ones.
    pub fn act_still(&mut self, archive: &Archive, act: Act, ids: &[Id])
        requires is_of { IsOf (map plain_letter archive.now.items) self.old }
        requires still { is_still (touched act) (facts_of self.old) ≡ true }
        ensures { Turned (map plain_letter archive.now.items) self.old self.new
            (record (facts_of self.old) { items = acted_all act ids.now self.old.items }) }
    {
        act_in_place(&mut self.items, &mut self.answers, act, ids);
        self.answers.tell_unread();
    }
}
