// A queue found in the text of an image.
ghost use Rattle.std.specs.Prelude.{MatchResult};
ghost use Rattle.image.specs.ImageAs.{TextIn, NoText};

use queue::bytes::view::View;
use queue::check::area::{Open, sound_at, store_at};
use queue::layout::frame::{Form, is_known, kind_of};
use queue::layout::limits::Limits;
use queue::refusal::Refusal;

/// The image of a sound queue: how it stands in the text, the queue, and how long an area that needs.
#[derive(Clone, Copy)]
pub struct Text {
    pub form: Form,
    pub open: Open,
    pub need: usize,
}

impl Text {
    /// The sound queue whose image the text is. The text tells its kind.
    #[tactic(auto, using(crate::proofs::ImageLaws::unsound_read))]
    pub fn read(s: &[u8]) -> Result<Text, Refusal>
        ensures { MatchResult result (TextIn s.now) (NoText s.now) }
    {
        let form = Form {
            hex: true,
            kind: kind_of(&View::new(s, true, 0)),
        };
        if !is_known(form.kind) {
            return Err(Refusal::NotAnImage);
        }
        let Some(x) = store_at(s, form, 0) else {
            return Err(Refusal::NotAnImage);
        };
        if x.next != s.len() {
            return Err(Refusal::NotAnImage);
        }
        if !sound_at(s, form, x) {
            return Err(Refusal::NotAnImage);
        }
        let need = Limits::need(x.head.limits);
        Ok(Text {
            form,
            open: x,
            need,
        })
    }
}
