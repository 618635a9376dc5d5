//! The words of roles, and of the states that callers see.
ghost use Rattle.std.specs.Prelude.{◌≡◌};
ghost use Rattle.units.specs.Words.{role_text, role_named, state_text};

use crate::unit::{Role, ShownState};

impl Role {
    /// The role with this word, if there is one.
    pub fn from_word(word: &str) -> Option<Role>
        ensures { result ≡ role_named word.now }
    {
        match word {
            "guest" => Some(Role::Guest),
            "translator" => Some(Role::Translator),
            "reviewer" => Some(Role::Reviewer),
            "manager" => Some(Role::Manager),
            _ => None,
        }
    }

    /// The word of the role.
    pub fn word(self) -> &'static str
        ensures { result.now ≡ role_text self }
    {
        match self {
            Role::Guest => "guest",
            Role::Translator => "translator",
            Role::Reviewer => "reviewer",
            Role::Manager => "manager",
        }
    }
}

impl ShownState {
    /// The word of the state.
    pub fn word(self) -> &'static str
        ensures { result.now ≡ state_text self }
    {
        match self {
            ShownState::Untranslated => "untranslated",
            ShownState::NeedsEditing => "needs-editing",
            ShownState::Translated => "translated",
            ShownState::Approved => "approved",
            ShownState::ReadOnly => "read-only",
        }
    }
}
