//! What help says besides the usage and the options that `clap` lists.

pub(crate) const PROGRAM: &str = "\
Projects, starts and answers are texts, and so is a record of a tree; a record of lemmas is bytes.
docs/FORMAT.md and 'man psmax' describe them.
'psmax COMMAND --help' says what the command reads and prints, with an example.
Faults go to standard error.

Exit status:
  0  answered
  1  memory, a thread or a device failed
  2  the words of the command or a text have a fault
  3  the search stopped at its limit
  4  the starts are not a feasible schedule, or the record is wrong";

pub(crate) const EARLIEST: &str = "\
Reads a project on standard input. Prints 'earliest C' and a line 'activity start' for each
activity. These are the earliest starts by the time lags alone; they may overload resources.
Prints 'positive cycle M' if the lags among the activities 0 to M contradict each other.

Example:
  psmax earliest < project.sch

Exit status:
  0  answered
  1  memory or a device failed
  2  the words of the command or the text have a fault";

pub(crate) const SOLVE: &str = "\
Reads a project on standard input. Prints one of these answers. If it has a schedule, a line
'activity start' for each activity follows.
  optimal C           no feasible schedule is shorter
  no schedule         the project has no feasible schedule
  feasible C bound B  the search stopped; no feasible schedule is shorter than B
  unknown bound B     the search stopped before it found a schedule; B is as above

--start reads the starts after the project. If they are not a feasible schedule, psmax prints
their violations as 'psmax check' does, and does not search.
--record writes a record of the search, which 'psmax verify' checks, after the answer 'optimal C'
or 'no schedule'. It is written into FILE.part and takes the place of FILE once it is whole; without
such an answer FILE stays as it is.
--start and --record use one worker unless --workers is given. Without these three options, one
thread searches depth first.

Examples:
  psmax solve < project.sch
  psmax solve --nodes 1000 --json < project.sch
  psmax solve --workers 4 --start plan.starts < project.sch
  psmax solve --record project.record < project.sch

Exit status:
  0  answered
  1  memory, a thread or a device failed
  2  the words of the command or a text have a fault
  3  the search stopped at its limit
  4  the starts of --start are not a feasible schedule";

pub(crate) const CHECK: &str = "\
Reads the project in FILE, then starts on standard input: a line 'activity start' for each
activity, or an answer of psmax. Prints 'feasible C', or a line for each violation:
  start V             the project starts at V and not at 0
  lag I J W           J starts less than W after I
  overload T RES USE  at time T activities use USE units of resource RES, which has fewer

Example:
  psmax check --project project.sch < plan.starts

Exit status:
  0  the schedule is feasible
  1  memory or a device failed
  2  the words of the command or a text have a fault
  4  the schedule has violations";

pub(crate) const TIDY: &str = "\
Reads a project on standard input. Prints it in its canonical text: a line for each row, one tab
between words, lags in brackets.

Example:
  psmax tidy < project.sch

Exit status:
  0  answered
  1  memory or a device failed
  2  the words of the command or the text have a fault";
