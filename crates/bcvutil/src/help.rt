/// What `--help` prints.
pub const HELP: &str = "usage: bcvutil STORE CLIENT COMMAND [ARGUMENT ..]

Publishes SQLite databases in a container, block by block, and reads them back. STORE is the folder
of the container, which its publishers and readers share, CLIENT a folder of your own, where your
commits and your id are kept in the file `journal`. Both must exist; `-` is an empty one in memory.
`bcvutil --help` prints this text, `bcvutil --version` the version.

Commands, each with the line that it writes:
  create BLOCK RETENTION     makes the container: the size of its blocks in bytes,    done K
                             a power of two from 512 to 16777216, and how long a
                             dead block is kept, in seconds
  new DB                     publishes the SQLite file on standard input              done K
  list                       the databases, each with its version, its pages and its local commits:
                             list DB:NUMBER:PAGES:COMMITS ..
  read DB OFFSET LENGTH      writes these bytes of the last version that are there, and no line;
                             LENGTH is 16777216 at most
  commit DB SIZE             commits pages locally: a line P=HEX on standard input    ok
                             for each, by its number from 1, ascending, with `-`
                             for zeros; SIZE is how many pages there are then
  upload DB                  publishes the commits of DB                              done K
  copy DB NEW                publishes a copy, which shares all blocks                done K
  drop DB                    publishes the removal of the name DB                     done K
  cleanup                    deletes dead blocks after their retention, 64 at         cleaned N
                             most; `cleaned N more` where some are left
  poll                       learns of the last version                               polled K
  resolve                    finds out whether a publication was made whose answer    resolved K
                             was lost; `voided` where it was not
  replay                     replays the script on standard input over a world of its own in
                             memory: a reply line for each event
  generate N                 replays a script of 2,000 events made from the number N: five lines,
                             the tally of the replies
K is the number of the version that was published. What is refused answers why, in one word or a
few: `exists`, `no-database`, `no-container`, `conflict MINE THEIRS`, `nothing`, `pending` ..
Numbers are decimal. DB has 1 to 64 letters, digits, '.', '_' and '-'; in front of a DB that begins
with `-` stands `--`.

Exit status, with a line on standard error where it is not 0:
   0 done                   5 output failed          10 unknown whether it was published: `resolve`
   2 bad words              6 out of memory          11 no random names
   3 bad line of the input  7 STORE failed           12 no time of day
   4 input failed           8 CLIENT failed          13 input too long
                            9 refused                14 bad manifest, block or journal

Example, a database published and its first page read:
  mkdir store client
  bcvutil store client create 65536 86400
  bcvutil store client new shop < shop.db
  bcvutil store client read shop 0 4096 > page

A script begins with the line
  world CLIENTS BLOCK PAGE RETENTION SLOTS
    1 to 16 clients; the sizes of blocks and pages in bytes, powers of two from 512; how long a dead
    block is kept, in seconds; the slots of each client's cache
Each further line is an event. C is a client from 1, X a transaction, T a task, K a number of device
calls, and I one of the crash images 0 to 4:
  tick N               time goes on by N seconds          ok
  C create             makes the container                task T working 1
  C new DB TEXT ..     publishes a database; TEXT is a    task T working N
                       page: - for zeros, or hex digits
                       for its first bytes
  C commit DB SIZE P=TEXT ..   commits pages locally      ok
  C upload DB          publishes a database's commits     task T working N
  C copy DB NEW        shares all of its blocks           task T working 2
  C drop DB            removes its name                   task T working 2
  C cleanup            deletes dead blocks                task T working 66
  C poll               learns of the last version         task T working 1
  C resolve            asks after a pending publication   task T working 1
  C step T             one request of a task; with a      working N, polled K, page TEXT, held,
  C step T fail        third word it fails, or its        +K done K, cleaned N, resolved K,
  C step T lost        answer is lost                     voided, or why it ended
  C begin DB           begins a transaction               txn X
  C read X P           reads a page in it                 page TEXT, or task T working 1
  C hold X P           keeps a page's block at hand       held, or task T working 1
  C look X P           a page that is at hand             page TEXT
  C free X P           lets the page's block go           ok
  C end X              ends the transaction               ok
  C revert DB          gives local commits up             ok
  C list               the databases, each with its       list DB:NUMBER:PAGES:COMMITS ..
                       version, pages and commits
  C crash I            the client's disk crashes          crashed
  C fuse K I           its disk crashes after K calls     ok
  C fail K             its disk fails after K calls       ok
  C up                 the client comes up again          up DB:NUMBER:PAGES:COMMITS ..
`+K` says that version K was published. Words are parted by one space.

Example, a page published and read:
  printf '%s\\n' 'world 1 1024 512 100 2' '1 create' '1 step 1' '1 new a aa' '1 step 1' \\
    '1 step 1' '1 step 1' '1 begin a' '1 read 1 1' '1 step 1' | bcvutil - - replay
";

/// What `--version` prints.
pub const VERSION: &str = "bcvutil 0.1.0\n";
