//! Laws on bodies and lines: facts about the definitions, with no code.
ghost use Rattle.std.specs.Prelude.{◌≡◌, ◌≢◌, ℕ, All, IfOk, IfSome, List, Ok, Some, true};
ghost use Rattle.serde_json.specs.Data.{Data};
ghost use Rattle.serde_json.specs.Read.{read};
ghost use Rattle.action_fields.specs.declared.kind.Kind.{Kind};
ghost use Rattle.action_types.specs.declared.actions.Action.{Action};
ghost use Rattle.action_fields.specs.Bodies.{body_of};
ghost use Rattle.action_fields.specs.Canonical.{action_data, body_data, canonical_line, kind_of};
ghost use Rattle.action_fields.specs.Fits.{HasFittingFields};
ghost use Rattle.action_fields.specs.Valid.{has_valid_fields};
ghost use Rattle.action_fields.specs.Ordered.{is_ordered};

/// A value that was read has the names of each of its objects in byte order, each once.
pub fn values_that_are_read_are_ordered()
    ensures { (text : List ℕ) → IfSome (read text) (λ d. is_ordered d ≡ true) }
{}

/// The canonical body of an action with valid fields is read as that action.
pub fn canonical_bodies_are_read()
    ensures { (a : Action) → has_valid_fields a ≡ true → HasFittingFields a → body_of (kind_of a) (body_data true a) ≡ Ok a }
{}

/// The canonical line of an action with valid fields is read as the object with the one member of its kind.
pub fn canonical_lines_are_read()
    ensures { (a : Action) → has_valid_fields a ≡ true → HasFittingFields a → read (canonical_line a) ≡ Some (action_data a) }
{}

/// The canonical line of an action with valid fields has no LF.
pub fn canonical_lines_are_lines()
    ensures { (a : Action) → has_valid_fields a ≡ true → HasFittingFields a → All (λ b. b ≢ 10) (canonical_line a) }
{}

/// An action that is read of a body in order has valid fields.
pub fn actions_that_are_read_have_valid_fields()
    ensures { (kind : Kind) (body : Data) → is_ordered body ≡ true → IfOk (body_of kind body) (λ a. has_valid_fields a ≡ true) }
{}
