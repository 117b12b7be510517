//! What each kind of step tells the seat that makes it: its new view, and what the rule says of the
//! word that it found.
use atomic_table::{Join, Play, Split};
use log_rule::View;
use std::marker::{Brand, PhantomData};

pub(crate) struct LoadTail;

impl Play<(), View> for LoadTail {
    ghost use Rattle.std.specs.Prelude.{◌≡◌, ◌≤◌};
    ghost use Rattle.lsn_space.specs.declared.lsn.TheConstants.{LAST};
    ghost use Rattle.log_rule.specs.Views.{saw_tail};

    ghost then = { λ st old n new. (new ≡ (saw_tail n old.0, old.1)) × ((old.0.seen.tail ≤ n) × (n ≤ LAST)) };
}

pub(crate) struct LoadExposed;

impl Play<(), View> for LoadExposed {
    ghost use Rattle.std.specs.Prelude.{◌≡◌, ◌≤◌};
    ghost use Rattle.lsn_space.specs.declared.lsn.TheConstants.{LAST};
    ghost use Rattle.log_rule.specs.Sends.{IsExposedToFlusher};
    ghost use Rattle.log_rule.specs.Views.{saw_exposed};

    ghost then = { λ st old n new. (new ≡ (saw_exposed n old.0, old.1)) × ((old.0.seen.exposed ≤ n) × (n ≤ LAST) × IsExposedToFlusher old.0 n) };
}

pub(crate) struct LoadDurable;

impl Play<(), View> for LoadDurable {
    ghost use Rattle.std.specs.Prelude.{◌≡◌, ◌≤◌};
    ghost use Rattle.lsn_space.specs.declared.lsn.TheConstants.{LAST};
    ghost use Rattle.log_rule.specs.Sends.{IsDurableToFlusher};
    ghost use Rattle.log_rule.specs.Views.{saw_durable};

    ghost then = { λ st old n new. (new ≡ (saw_durable n old.0, old.1)) × ((old.0.seen.durable ≤ n) × (n ≤ LAST) × IsDurableToFlusher old.0 n) };
}

pub(crate) struct ExchangeTail;

impl Play<(), View> for ExchangeTail {
    ghost use Rattle.std.specs.Prelude.{◌≡◌, ◌≤◌};
    ghost use Rattle.lsn_space.specs.declared.lsn.TheConstants.{LAST};
    ghost use Rattle.log_rule.specs.SlotViews.{after_exchange};

    ghost then = { λ st old n new. (new ≡ (after_exchange st.first st.second n old.0, old.1)) × ((old.0.seen.tail ≤ n) × (n ≤ LAST)) };
}

pub(crate) struct StoreRing;

impl Play<(), View> for StoreRing {
    ghost use Rattle.std.specs.Prelude.{◌≡◌};
    ghost use Rattle.log_rule.specs.Views.{filled};

    ghost then = { λ st old n new. (new ≡ (filled st.first old.0, old.1)) × Unit {0} };
}

pub(crate) struct StoreMark;

impl Play<(), View> for StoreMark {
    ghost use Rattle.std.specs.Prelude.{◌≡◌};
    ghost use Rattle.log_rule.specs.MarkViews.{marked};

    ghost then = { λ st old n new. (new ≡ (marked old.0, old.1)) × Unit {0} };
}

pub(crate) struct LoadMark;

impl Play<(), View> for LoadMark {
    ghost use Rattle.std.specs.Prelude.{◌≡◌, ◌≤◌};
    ghost use Rattle.lsn_space.specs.declared.lsn.TheConstants.{LAST};
    ghost use Rattle.log_rule.specs.MarkViews.{saw_mark};

    ghost then = { λ st old n new. (new ≡ (saw_mark n old.0, old.1)) × (n ≤ LAST) };
}

pub(crate) struct ExchangeExposed;

impl Play<(), View> for ExchangeExposed {
    ghost use Rattle.std.specs.Prelude.{◌≡◌, ◌≤◌, ◌==◌, if◌then◌else◌};
    ghost use Rattle.lsn_space.specs.declared.lsn.TheConstants.{LAST};
    ghost use Rattle.log_rule.specs.MarkViews.{after_raise};

    ghost then = { λ st old n new. (new ≡ (after_raise (if n == st.first then st.second else n) old.0, old.1)) × ((st.first ≤ n) × (old.0.seen.exposed ≤ n) × (n ≤ LAST)) };
}

pub(crate) struct Enroll;

impl Play<(), View> for Enroll {
    ghost use Rattle.std.specs.Prelude.{◌≡◌};
    ghost use Rattle.log_rule.specs.CrewViews.{enrolled};

    ghost then = { λ st old n new. (new ≡ (enrolled old.0, old.1)) × Unit {0} };
}

pub(crate) struct Leave;

impl Play<(), View> for Leave {
    ghost use Rattle.std.specs.Prelude.{◌≡◌};
    ghost use Rattle.log_rule.specs.CrewViews.{retired};

    ghost then = { λ st old n new. (new ≡ (retired old.0, old.1)) × Unit {0} };
}

pub(crate) struct LoadRing;

impl Play<(), View> for LoadRing {
    ghost use Rattle.std.specs.Prelude.{◌≡◌};
    ghost use Rattle.log_rule.specs.Sends.{ReadsWholeEntries};
    ghost use Rattle.log_rule.specs.Views.{has_read};

    ghost then = { λ st old n new. (new ≡ (has_read n old.0, old.1)) × ReadsWholeEntries (has_read n old.0) };
}

/// Who steps: the number of the seat, and what its table was made with.
pub trait Stepper {
    ghost use Rattle.std.specs.Prelude.{ℕ};
    ghost use Rattle.log_rule.specs.declared.start.Start.{Start};

    ghost key: { Start };

    ghost seat: { ℕ };
}

impl Stepper for Brand {
    ghost use Rattle.std.specs.Prelude.{[]};

    ghost key = { record { start = 0; ring = 0; slots = 0; accounts = record { rows = []; room = 0 } } };

    ghost seat = { 0 };
}

/// Tells besides that the rule holds of this moment, behind the step.
pub(crate) struct StoreDurable<S> {
    stepper: PhantomData<S>,
}

impl<S: Stepper> Play<(), View> for StoreDurable<S> {
    ghost use Rattle.std.specs.Prelude.{◌≡◌};
    ghost use Rattle.log_rule.specs.Moments.{HoldsAtOnce};
    ghost use Rattle.log_rule.specs.Views.{has_sent};

    ghost then = { λ st old n new. (new ≡ (has_sent st.first old.0, old.1)) × HoldsAtOnce S.key S.seat (has_sent st.first old.0) };
}

pub(crate) struct StoreStop;

impl Play<(), View> for StoreStop {
    ghost use Rattle.std.specs.Prelude.{◌≡◌};
    ghost use Rattle.log_rule.specs.Views.{has_stopped};

    ghost then = { λ st old n new. (new ≡ (has_stopped st.first old.0, old.1)) × Unit {0} };
}

pub(crate) struct LoadStop;

impl Play<(), View> for LoadStop {
    ghost use Rattle.std.specs.Prelude.{◌≡◌, ◌≢◌};
    ghost use Rattle.log_rule.specs.Views.{saw_stop};

    ghost then = { λ st old n new. (new ≡ (saw_stop n old.0, old.1)) × (old.0.seen.stop ≢ 0 → n ≡ old.0.seen.stop) };
}

/// A load that changes nothing. The rule tells at a step alone that what the flusher's seat has read in
/// stop, itself or by a merge, is 0 or what it stored.
pub(crate) struct TellStop;

impl Play<(), View> for TellStop {
    ghost use Rattle.std.specs.Prelude.{◌≡◌};
    ghost use Rattle.log_rule.specs.declared.view.Role.TheVariants.{Flusher};
    ghost use Rattle.log_rule.specs.Sound.{HasReadStop};

    ghost then = { λ st old n new. (new ≡ (old.0, old.1)) × (old.0.standing.role ≡ Flusher → HasReadStop old.0.sending.stop old.0) };
}

/// A load that changes nothing, and tells that the rule holds of this moment.
pub(crate) struct Look<S> {
    stepper: PhantomData<S>,
}

impl<S: Stepper> Play<(), View> for Look<S> {
    ghost use Rattle.std.specs.Prelude.{◌≡◌};
    ghost use Rattle.log_rule.specs.Moments.{HoldsAtOnce};

    ghost then = { λ st old n new. (new ≡ (old.0, old.1)) × HoldsAtOnce S.key S.seat old.0 };
}

pub(crate) struct LoadCrew;

impl Play<(), View> for LoadCrew {
    ghost use Rattle.std.specs.Prelude.{◌≡◌};
    ghost use Rattle.log_rule.specs.Views.{saw_crew};

    ghost then = { λ st old n new. (new ≡ (saw_crew n old.0, old.1)) × Unit {0} };
}

/// The number of a worker, of a slot, or of an account.
pub trait Number {
    ghost use Rattle.std.specs.Prelude.{ℕ};

    ghost number: { ℕ };
}

impl Number for Brand {
    ghost number = { 0 };
}

/// A job, and its transaction number.
pub trait Task {
    ghost use Rattle.std.specs.Prelude.{ℕ};
    ghost use Rattle.lock_core.specs.declared.job.Job.{Job};

    ghost number: { ℕ };

    ghost job: { Job };
}

impl Task for Brand {
    ghost use Rattle.log_rule.specs.Books.{no_job};

    ghost number = { 0 };

    ghost job = { no_job.job };
}

pub(crate) struct TakeJob<N> {
    task: PhantomData<N>,
}

impl<N: Task> Play<(), View> for TakeJob<N> {
    ghost use Rattle.std.specs.Prelude.{◌≡◌, ◌≢◌};
    ghost use Rattle.log_rule.specs.AccountViews.{took_job};

    ghost then = { λ st old n new. (new ≡ (took_job N.number N.job n old.0, old.1)) × (old.0.seen.stop ≢ 0 → n ≡ old.0.seen.stop) };
}

pub(crate) struct LoadSlot<N> {
    slot: PhantomData<N>,
}

impl<N: Number> Play<(), View> for LoadSlot<N> {
    ghost use Rattle.std.specs.Prelude.{◌≡◌};
    ghost use Rattle.slot_word.specs.SlotWord.{IsSlotWord};
    ghost use Rattle.log_rule.specs.SlotViews.{saw_slot, TellsWaiting};

    ghost then = { λ st old n new. (new ≡ (saw_slot N.number n old.0, old.1)) × (IsSlotWord n × TellsWaiting N.number n old.0) };
}

pub(crate) struct JoinSlot;

impl Play<(), View> for JoinSlot {
    ghost use Rattle.std.specs.Prelude.{◌≡◌};
    ghost use Rattle.slot_word.specs.SlotWord.{total_in, IsSlotWord};
    ghost use Rattle.log_rule.specs.SlotViews.{own_slot_of, after_join};

    ghost then = { λ st old n new. (new ≡ (after_join (own_slot_of old.0) (total_in st.first) st.first n old.0, old.1)) × IsSlotWord n };
}

pub(crate) struct CloseSlot;

impl Play<(), View> for CloseSlot {
    ghost use Rattle.std.specs.Prelude.{◌≡◌, ◌/◌};
    ghost use Rattle.log_rule.specs.SlotViews.{closed_slot, IsGatheringWord};

    ghost then = { λ st old n new. (new ≡ (closed_slot n old.0, old.1)) × IsGatheringWord (old.0.constants.ring / 4) n };
}

pub(crate) struct StoreBase;

impl Play<(), View> for StoreBase {
    ghost use Rattle.std.specs.Prelude.{◌≡◌};
    ghost use Rattle.log_rule.specs.SlotViews.{stored_base};

    ghost then = { λ st old n new. (new ≡ (stored_base old.0, old.1)) × Unit {0} };
}

pub(crate) struct Publish;

impl Play<(), View> for Publish {
    ghost use Rattle.std.specs.Prelude.{◌≡◌};
    ghost use Rattle.log_rule.specs.SlotViews.{published};

    ghost then = { λ st old n new. (new ≡ (published old.0, old.1)) × Unit {0} };
}

pub(crate) struct LoadBase;

impl Play<(), View> for LoadBase {
    ghost use Rattle.std.specs.Prelude.{◌≡◌};
    ghost use Rattle.log_rule.specs.SlotViews.{heard_base, TellsMember};

    ghost then = { λ st old n new. (new ≡ (heard_base n old.0, old.1)) × TellsMember n old.0 };
}

pub(crate) struct ReleaseSlot;

impl Play<(), View> for ReleaseSlot {
    ghost use Rattle.std.specs.Prelude.{◌≡◌, ◌/◌};
    ghost use Rattle.log_rule.specs.SlotViews.{released_piece, HasToRelease};

    ghost then = { λ st old n new. (new ≡ (released_piece n old.0, old.1)) × HasToRelease (old.0.constants.ring / 4) st.first old.0.call n };
}

pub(crate) struct Reopen;

impl Play<(), View> for Reopen {
    ghost use Rattle.std.specs.Prelude.{◌≡◌};
    ghost use Rattle.log_rule.specs.SlotViews.{reopened};

    ghost then = { λ st old n new. (new ≡ (reopened old.0, old.1)) × Unit {0} };
}

pub(crate) struct LoadAccount<N> {
    account: PhantomData<N>,
}

impl<N: Number> Play<(), View> for LoadAccount<N> {
    ghost use Rattle.std.specs.Prelude.{◌≡◌};
    ghost use Rattle.slot_word.specs.AccountWord.{IsAccountWord};
    ghost use Rattle.log_rule.specs.May.{IsOwnWord};
    ghost use Rattle.log_rule.specs.AccountViews.{saw_account};

    ghost then = { λ st old n new. (new ≡ (saw_account N.number n old.0, old.1)) × (IsAccountWord n × IsOwnWord N.number n old.0.books) };
}

pub(crate) struct ExchangeAccount<N> {
    account: PhantomData<N>,
}

impl<N: Number> Play<(), View> for ExchangeAccount<N> {
    ghost use Rattle.std.specs.Prelude.{◌≡◌};
    ghost use Rattle.slot_word.specs.AccountWord.{IsAccountWord};
    ghost use Rattle.log_rule.specs.May.{IsOwnWord};
    ghost use Rattle.log_rule.specs.AccountViews.{after_account};

    ghost then = { λ st old n new. (new ≡ (after_account N.number st.first n old.0, old.1)) × (IsAccountWord n × IsOwnWord N.number n old.0.books) };
}

pub(crate) struct LoadBalance;

impl Play<(), View> for LoadBalance {
    ghost use Rattle.std.specs.Prelude.{◌≡◌, ◌≤◌};
    ghost use Rattle.lsn_space.specs.declared.opening.TheConstants.{MOST_BALANCE};
    ghost use Rattle.log_rule.specs.AccountViews.{loaded_balance};

    ghost then = { λ st old n new. (new ≡ (loaded_balance n old.0, old.1)) × (n ≤ MOST_BALANCE) };
}

pub(crate) struct StoreBalance<N> {
    account: PhantomData<N>,
}

impl<N: Number> Play<(), View> for StoreBalance<N> {
    ghost use Rattle.std.specs.Prelude.{◌≡◌};
    ghost use Rattle.log_rule.specs.AccountViews.{stored_balance};

    ghost then = { λ st old n new. (new ≡ (stored_balance N.number st.first old.0, old.1)) × Unit {0} };
}

pub(crate) struct StoreAccount<N> {
    account: PhantomData<N>,
}

impl<N: Number> Play<(), View> for StoreAccount<N> {
    ghost use Rattle.std.specs.Prelude.{◌≡◌};
    ghost use Rattle.log_rule.specs.AccountViews.{gave_account};

    ghost then = { λ st old n new. (new ≡ (gave_account N.number old.0, old.1)) × Unit {0} };
}

pub(crate) struct Hire<N> {
    number: PhantomData<N>,
}

impl<N: Number> Split<View> for Hire<N> {
    ghost use Rattle.log_rule.specs.CrewViews.{hires, hired};

    ghost left = { hires N.number };

    ghost right = { hired N.number };
}

pub(crate) struct MakeNote;

impl Split<View> for MakeNote {
    ghost use Rattle.log_rule.specs.CrewViews.{noted};

    ghost left = { λ view. view };

    ghost right = { noted };
}

pub(crate) struct TakeIn;

impl Join<View> for TakeIn {
    ghost use Rattle.log_rule.specs.Views.{nobody};
    ghost use Rattle.log_rule.specs.CrewViews.{takes_in};

    ghost both = { takes_in };

    ghost spent = { nobody };
}
