//! What `--help` and `--version` write. `./dory_server` reads both texts here before anything is built, so they have
//! neither a quotation mark nor a backslash in them.

/// What `--help` writes.
pub const HELP: &str = "dory_server: one of the two domains of a shared folder's search

usage: dory_server ROLE ADDRESS SEATS FOLDER..

ROLE     lead or follow: a group has one server of each
ADDRESS  IPv4 a.b.c.d:port, as 127.0.0.1:7001; port 0 is any free one
SEATS    1 to 32: as many connections are served at once, and others wait
FOLDER   ID:DEPTH:PROBES or ID:DEPTH:PROBES:RETAINED, 1 to 8 of them, the same
         at both servers: ID a number, depth 8 to 11, probes 1 to 8, and how
         many versions a search may ask for, 1 to 256, 64 where not given

Numbers are decimal, without a leading zero.

example: dory_server lead 127.0.0.1:7001 4 1:11:4

It writes `ready ADDRESS` on standard output once it can be reached, and then
serves until it is stopped. It keeps everything in memory: started anew, it is
empty. Whoever reaches its port can post.

Statuses, each with a line on standard error after `dory_server: `
  2   usage AT: the word at AT, counted from 0, is absent or wrong; a second
      line says what it should be
  3   badconfig: too many folders, one of them twice, versions or seats out of
      range; a second line says which word
  4   bindfault, acceptfault: ADDRESS can't be had, or connections end
  5   placerefused: a seat got no place at a folder
  9   outputfault: the line couldn't be written
  12  nomemory, nothreads: there is no room for it, or for a thread to each seat

  --help     writes this text
  --version  writes the version
";

/// What `--version` writes.
pub const VERSION: &str = "dory_server 0.3.0
";
