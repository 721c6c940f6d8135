//! Keys that are typed at a prompt.

use crate::desk::Desk;
use index_functions::Wanted;
use keymap::Key;
use mail_base::NoMemory;
use prompts::Reply;

impl Desk {
    ghost use Rattle.std.specs.Prelude.{◌≡◌, OnOk};
    ghost use Rattle.session_index.specs.Desk.{plain_desk};
    ghost use Rattle.session_index.specs.Typing as spec;

    /// Takes a key where a prompt stands.
    pub fn type_key(&mut self, key: Key) -> Result<(), NoMemory>
        ensures desk { OnOk result (plain_desk self.new ≡ spec.typed key (plain_desk self.old)) }
        ensures view { self.new.view ≡ self.old.view }
    {
        let Some(prompt) = &mut self.prompt else {
            return Ok(());
        };
        let asking = prompt.asking();
        match prompt.take_key(key)? {
            Reply::More => {}
            Reply::GivenUp => {
                self.prompt = None;
                self.prefix = false;
            }
            Reply::Answered => {
                self.wanted = Wanted::ToAnswer(asking, prompt.text(self.alloc)?);
                self.prompt = None;
            }
            Reply::Chosen(choice) => {
                self.wanted = Wanted::ToChoose(asking, choice);
                self.prompt = None;
            }
        }
        Ok(())
    }
}
