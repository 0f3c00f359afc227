//! Following the words of an expression, step by step.
ghost use Rattle.std.specs.Prelude.{◌≡◌, ◌<◌, ◌≤◌, length, IsOk, Ok};
ghost use Rattle.base_store.specs.Stored.{view_in, without_temporary};
ghost use Rattle.session.specs.Environment.{NamesWithin, named};
ghost use Rattle.session.specs.Following.{IsEnd, end_in, node_of, parts_in, target_in};
ghost use Rattle.machine.specs.Languages.{known};
ghost use Rattle.machine.specs.Typing.{typed_words};
ghost use Rattle.machine.specs.Views as view;

use crate::bound::Bound;
use crate::names::IndexMap;
use crate::taking::take_step;
use crate::typing::{Typed, type_word};
use base_store::{AnyRef, Store};
use elem::Word;
use script_text::Part;
use vocabulary::{Call, OnOther, Purpose, Refusal};

/// What an expression ends in: a view, or a call on one.
#[derive(Clone, Copy)]
pub enum End {
    View(AnyRef),
    Call(AnyRef, Call),
    /// A call on the first view with the second.
    With(AnyRef, OnOther, AnyRef),
}

impl End {
    /// The view at the end.
    pub fn node(&self) -> AnyRef
        ensures { result ≡ node_of self.now }
    {
        match self {
            End::View(n) | End::Call(n, _) | End::With(n, _, _) => *n,
        }
    }
}

/// Follows words that each have a meaning in their place. The views on the way are temporary nodes.
///
/// # Errors
///
/// The refusal of the first step that is refused, or of its argument.
pub fn follow(
    store: &mut Store,
    names: &IndexMap<Word, Bound>,
    head: AnyRef,
    purpose: Purpose,
    line: &[u8],
    parts: &[Part],
) -> Result<End, Refusal>
    requires head { head < length store.old.nodes }
    requires still { length store.old.nodes ≡ store.old.lasting }
    requires names { NamesWithin store.old.lasting names.now.entries }
    requires short { length line.now ≤ 1024 }
    requires typed { IsOk (typed_words known store.old.world (named store.old.nodes names.now.entries) purpose (view.shape_at store.old.world (view_in store.old head)) (parts_in line.now parts.now)) }
    ensures world { store.new.world ≡ store.old.world }
    ensures front { without_temporary store.new ≡ without_temporary store.old }
    ensures end { IsEnd store.new result }
    ensures led { target_in store.old store.old.handles names.now.entries purpose head (parts_in line.now parts.now) ≡ Ok (end_in store.new result) }
{
    let mut node = head;
    let mut rest = parts;
    while let [part, more @ ..] = rest {
        let typed = type_word(
            store,
            names,
            purpose,
            more.is_empty(),
            store.shape(node),
            line,
            part,
        );
        let Ok(word) = &typed else {
            return Err(Refusal::Limit);
        };
        match word {
            Typed::Step(form, _) => match take_step(store, node, *form, part.argument(line, 0)) {
                Ok(made) => {
                    node = made;
                    rest = more;
                }
                Err(refusal) => return Err(refusal),
            },
            Typed::Call(call) => return Ok(End::Call(node, *call)),
            Typed::With(word, other) => return Ok(End::With(node, *word, *other)),
        }
    }
    Ok(End::View(node))
}
