//! Laws over the definitions, each a function whose contract is the law.

ghost use Rattle.drill_talk.specs.Laws.{TalkCounts, NoPutIsLost};

use monitor_model::laws;

/// States that a session of the drill's keys counts. Whatever the replies are, it opens the file
/// for update alone, and writes only over a page that it has read, with the next number.
pub fn talk_counts()
    ensures { TalkCounts }
{}

/// States that no Put of a drill is lost. In every history of a run of its deck, the last Put wrote
/// the number of all Puts that were done, in 16 bits.
pub fn no_put_is_lost()
    ensures { NoPutIsLost }
{
    laws::opening_is_good();
    laws::opening_is_unopened();
    laws::answer_keeps_jobs();
    laws::safe_updates();
    talk_counts();
}
