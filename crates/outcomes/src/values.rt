//! The values that an act gave, as the text of its reply's body, written token by token.
ghost use Rattle.std.specs.Prelude.{◌≡◌, ◌++◌, [], ◌∷◌, codes, IfOk, OnOk, IsUtf8};
ghost use Rattle.replies.specs.Bodies.{done as done_of, value_fields};
ghost use Rattle.request_book.specs.Words.{natural, whole, number_data};
ghost use Rattle.serde_json.specs.Data.{string};
ghost use Rattle.units.specs.Words.{state_text};
ghost use Rattle.outcomes.specs.ValueTokens.{tokens_of};

use json::Writer;
use po_text::Text;
use review::Values;
use std::alloc::{AllocError, Global};
use units::{Revision, ShownState};
use uuid::Uuid;

// What most of these texts have room in.
const ROOM: usize = 64;

/// A unit's revision and state, which every act tells.
fn put_unit(out: &mut Writer, revision: Revision, state: ShownState) -> Result<(), AllocError>
    ensures value { OnOk result (out.new.tokens ≡ out.old.tokens
        ++ tokens_of ((codes "revision", natural revision) ∷ (codes "state", string (state_text state)) ∷ [])) }
    ensures before { out.new.before ≡ out.old.before }
{
    out.key("revision")?;
    out.u64(revision.number())?;
    out.key("state")?;
    out.string(state.word())
}

fn put_suggestion(out: &mut Writer, suggestion: Uuid) -> Result<(), AllocError>
    ensures value { OnOk result (out.new.tokens ≡ out.old.tokens ++ tokens_of ((codes "suggestion", number_data suggestion) ∷ [])) }
    ensures before { out.new.before ≡ out.old.before }
{
    let mut buffer = Uuid::encode_buffer();
    let written: &str = suggestion.hyphenated().encode_lower(&mut buffer);
    out.key("suggestion")?;
    out.string(written)
}

#[tactic(auto, using(crate::proofs::ValueTexts::whole_text))]
fn put_votes(out: &mut Writer, votes: i64) -> Result<(), AllocError>
    ensures value { OnOk result (out.new.tokens ≡ out.old.tokens ++ tokens_of ((codes "votes", whole votes) ∷ [])) }
    ensures before { out.new.before ≡ out.old.before }
{
    out.key("votes")?;
    out.i64(votes)
}

fn put_values(out: &mut Writer, values: Values) -> Result<(), AllocError>
    ensures value { OnOk result (out.new.tokens ≡ out.old.tokens ++ tokens_of (value_fields values)) }
    ensures before { out.new.before ≡ out.old.before }
{
    match values {
        Values::Plain { revision, state } => put_unit(out, revision, state),
        Values::Suggested {
            revision,
            state,
            suggestion,
            votes,
        } => {
            put_unit(out, revision, state)?;
            put_suggestion(out, suggestion)?;
            put_votes(out, votes)
        }
        Values::Voted {
            accepted,
            revision,
            state,
            votes,
        } => {
            out.key("accepted")?;
            out.boolean(accepted)?;
            put_unit(out, revision, state)?;
            put_votes(out, votes)
        }
    }
}

// The text that these bytes are.
fn text_of(bytes: Vec<u8>) -> Text
    requires { IsUtf8 bytes.items }
    ensures { result ≡ bytes.items }
{
    match String::from_utf8(bytes) {
        Ok(text) => Text::from_string(text),
        Err(_) => unreachable!(),
    }
}

/// The body that tells these values.
pub(crate) fn values_text(alloc: Global, values: Values) -> Result<Text, AllocError>
    ensures { IfOk result (λ text. text ≡ (done_of values).body) }
{
    let mut out = Writer::new(Vec::with_capacity(alloc, ROOM)?);
    out.begin_object()?;
    put_values(&mut out, values)?;
    out.end_object()?;
    Ok(text_of(out.into_inner()))
}
