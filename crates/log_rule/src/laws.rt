//! What the rule says of the units that were sent.
ghost use Rattle.std.specs.Prelude.{◌≡◌, ◌++◌, ℕ};
ghost use Rattle.log_rule.specs.declared.start.Start.{Start};
ghost use Rattle.log_rule.specs.declared.view.Role.TheVariants.{Flusher};
ghost use Rattle.log_rule.specs.declared.view.View.{View};
ghost use Rattle.log_rule.specs.Moments.{HoldsAtOnce, SpellLawfully};
ghost use Rattle.log_rule.specs.Sound.{base_of};
ghost use Rattle.log_rule.specs.Views.{read_to};

/// A law: at any moment at which the rule holds, the units that the flusher's seat has sent spell records; and so do these with
/// those that it has read, once it has read all up to exposed as it loaded that. Where no job number stands twice in the views of
/// that moment, they are a lawful list, which runs the jobs in these views and no others, each whole or cut short.
pub fn sent_lawfully()
    ensures sent { (key : Start) (seat : ℕ) (view : View) (once : HoldsAtOnce key seat view) → view.standing.role ≡ Flusher
        → SpellLawfully (base_of key) once.views view.sending.sent }
    ensures read { (key : Start) (seat : ℕ) (view : View) (once : HoldsAtOnce key seat view) → view.standing.role ≡ Flusher
        → read_to view ≡ view.sending.exposed
        → SpellLawfully (base_of key) once.views (view.sending.sent ++ view.sending.read) }
{}
