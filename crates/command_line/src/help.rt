//! What help says of `verify`, besides the usage and the options that `clap` lists.

pub(crate) const VERIFY: &str = "\
Reads the project in FILE, then a record on standard input: a tree, which 'psmax solve --record'
writes, or lemmas, which 'psprove solve --record' writes. Its first line says which. Both programs
verify both, and any program may have written them. docs/RECORD.md and docs/LEMMAS.md describe them.
verify checks each line or event by itself, and does not trust the program that wrote it. Of lemmas
it keeps those that are not dropped, and no more of the record than one event. If all is right, it
prints what is proved:
  proved optimal C    the shortest feasible schedule takes C
  proved bound C      no feasible schedule is shorter than C
  proved no schedule  the project has no feasible schedule
Otherwise the first wrong line or event goes to standard error. Lines of a tree count from 1.
If the text is not a tree:
  line L: form        this line may not stand there
  line L: short       the text ends before this line
  line L: trailing    the record ends before this line
If the tree is wrong:
  line L: start       the starts are not a feasible schedule of the claimed makespan
  line L: force       the pair is not forced
  line L: set         the members may run together, or the node is dead
  line L: leaf        the node is not solved, cut or dead, as the line claims
Events of lemmas count from 1, and the title is event 0:
  event N: form       the bytes are no event, or not the title
  event N: long       the lemma has more than 1,024 arcs
  event N: short      the record ends before this event, or within it
  event N: trailing   the event before this one is the claim, which is the last
  event N: lemma      its lines do not refute its arcs, or its slot is not empty
  event N: drop       the slot is empty
  event N: schedule   the starts are not feasible, or not shorter than the schedules before
  event N: claim      it is not what the events before it prove
--partial takes lemmas that are cut off, and prints what their events prove; 'short' is then no
fault.
--part K/N looks at the lines of the lemmas whose event leaves K - 1 when it is divided by N, and
at no others, and prints 'part K/N of proved ..'. That is proved once all N parts of a record have
said so: parts can be checked side by side. A tree is checked whole.

Examples:
  psmax verify --project project.sch < project.record
  psprove verify --project project.sch < project.record

Exit status:
  0  proved
  1  memory or a device failed
  2  the words of the command, the project or the text of a tree have a fault
  4  the record is wrong";
