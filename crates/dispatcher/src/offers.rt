// Ask first, then commit: what a step would come to, and a step on what was asked about.
ghost use Rattle.std.specs.Prelude.{◌≡◌};
ghost use Rattle.table.specs.Table.{standard};
ghost use Rattle.sessions.specs.Asking.{commit_of};
ghost use Rattle.dispatcher.specs.Handed.{held_by, held_offer, handed};

use crate::{Session, Stepped};
use advances::answer_of;
use asking::{commit_in, same_session};

// A session that was asked about, and the scene's length. A caller may hand in any.
#[derive(Clone, Copy)]
pub struct Offer {
    pub session: Session,
    pub length: usize,
}

// What ask hands back.
#[derive(Clone, Copy)]
pub struct Asked {
    pub number: u8,
    pub place: usize,
    pub records: usize,
    pub offer: Offer,
}

impl Offer {
    // A step on what is handed in, where the session and the scene's length are the offer's; else 30.
    pub fn commit(self, session: Session, table: &[u8], scene: &[u8], out: &mut [u8]) -> Stepped
        ensures { handed result out.new ≡ commit_of standard (held_offer self) (held_by session) table.now scene.now out.old }
    {
        let mut levels = session.levels();
        let mut bindings = session.scope.bindings;
        let offered = self.session;
        let offered_levels = offered.levels();
        let offered_bindings = offered.scope.bindings;
        let same = same_session(
            session.head(),
            &levels,
            &bindings,
            offered.head(),
            &offered_levels,
            &offered_bindings,
        );
        let committed = commit_in(
            same & (scene.len() == self.length),
            table,
            scene,
            session.head(),
            &mut levels,
            &mut bindings,
            out,
        );
        Stepped {
            answer: answer_of(committed),
            session: Session::of(committed.head, &levels, bindings),
        }
    }
}
