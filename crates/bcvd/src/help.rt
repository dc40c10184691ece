/// What `--help` prints.
pub const HELP: &str = "usage: bcvd STORE CLIENT ADDRESS

Serves the databases of a container to readers over TCP. STORE is the folder of the container, CLIENT
a folder of the daemon's own, where its id is kept in the file `journal`. Both must exist; `-` is an
empty one in memory. ADDRESS is an address and a port, as 127.0.0.1:7700 or [::1]:7700. Once it
listens it prints `bcvd ready`. It serves one connection after the other, and many sessions over each,
which share a cache of 64 blocks. `bcvd --help` prints this text, `bcvd --version` the version.

A message is a length of 4 bytes, which counts what follows it, a kind of 1 byte, a session of 4 bytes,
which the reader chooses, and fields. Each gets one answer of the same form, in order. Numbers stand
with their highest byte first.

  Kind      Fields                             Answer
  1 poll    none                               1 number:8         the last version
  2 begin   the database's name                2 number:8 page-size:4 pages:4
                                                                  the version that is read from now on
  3 read    offset:8 length:4                  3 bytes            those that are there, up to 16 MiB
  4 end     none                               0                  the transaction is over
  5 list    none                               5 rows             the databases: a count of 4 bytes, and
                                                                  for each its name after a byte for
                                                                  its length, version:8, pages:4 and
                                                                  commits:8
  6 hold    page:4                             0                  the page's block stays in the cache
  7 look    page:4                             3 bytes            a page that is held or local
  8 free    page:4                             0                  the page's block may go
An answer of kind 64 refuses: it says why in words, as `no-txn`, `busy` or `cache-full`. A session has
one transaction at a time, which ends with its connection at the latest. Begin reads the version of the
last poll, so poll first. Bytes that are no message end the connection.

Exit status, with a line on standard error where it is not 0:
   0 done                      8 CLIENT failed
   2 bad words                11 no random names
   5 output failed            14 bad journal
   6 out of memory            15 ADDRESS cannot be served
   7 STORE failed

Example, a container in a folder that `bcvutil` made, asked for its last version:
  mkdir store client reader
  bcvutil store client create 65536 86400
  bcvd store reader 127.0.0.1:7700 &
  printf '\\0\\0\\0\\5\\1\\0\\0\\0\\0' | nc -N 127.0.0.1 7700 | od -An -tx1
";

/// What `--version` prints.
pub const VERSION: &str = "bcvd 0.1.0\n";
