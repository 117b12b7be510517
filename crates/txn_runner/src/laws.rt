ghost use Rattle.std.specs.Prelude.{ℕ, List};
ghost use Rattle.log_rule.specs.declared.view.View.{View};
ghost use Rattle.log_rule.specs.Accounts.{HasDistinctJobs};
ghost use Rattle.log_rule.specs.Moments.{books_of_all};
ghost use Rattle.job_queue.specs.declared.takings.Takings.{Takings};
ghost use Rattle.job_queue.specs.Rule.{IsShared};
ghost use Rattle.txn_runner.specs.Places.{NumberedJobs};
ghost use Rattle.txn_runner.specs.Tying.{AreOfPasses};

/// A law: where the rule of the queue holds of its passes, and the jobs in the books of a table's seats are the transfers at
/// places that these passes took at least as often, no job number stands twice in these books.
pub fn no_job_twice()
    ensures { (jobs : NumberedJobs) (items : List ℕ) (passes : List Takings) (views : List View) → IsShared items passes
        → AreOfPasses jobs passes views → HasDistinctJobs (books_of_all views) }
{}
