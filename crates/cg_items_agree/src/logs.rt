ghost use Rattle.cg_items_agree.specs.ShownLogs.{ShownLogsAgree};

use cg_agree::runs_agree;
use cg_compare::logs_of_one_order_agree;
use cg_terms::agreement_gives_guarantees;

/// Logs that one run shows are never told to differ, whichever replicas show them and when.
pub fn shown_logs_agree()
    ensures { ShownLogsAgree }
{
    runs_agree();
    agreement_gives_guarantees();
    logs_of_one_order_agree();
}
