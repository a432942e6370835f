//! What `--help` and `--version` write. `./dory` reads both texts here before anything is built, so they have neither a
//! quotation mark nor a backslash in them.

/// What `--help` writes.
pub const HELP: &str = "dory: a member of a shared folder, searched over two servers

usage: dory STATE LEAD FOLLOW COMMAND

STATE   the file that keeps the member's state, its master key among it: one for
        a member's number, on one machine, never copied and never put back
LEAD    the lead's address, IPv4 a.b.c.d:port, as 127.0.0.1:7001
FOLLOW  the follower's address, of the same form

COMMAND is one of
  init --folder N --member N --depth N --probes N --master HEX [--serial N]
                begins the state of member 0 to 63: depth 8 to 11 and probes 1
                to 8 as the servers have them, HEX the master key of the folder
                in 64 digits, and a serial above all that this member ever used
  post DOC      posts the document DOC, a number, whose text is standard input
  remove DOC    removes it
  search WORD   lists the documents whose rows hold the word
  resume        finishes an update that was broken off
  latest        says how many updates each server has, and how many were seen
  rotate        begins a new epoch of keys

Numbers are decimal, without a leading zero.

example: dory me 127.0.0.1:7001 127.0.0.1:7002 search invoice

Statuses; done, it writes one line on standard output, and any other end is a
line on standard error after `dory: `
  0   done
  2   usage: the words are no command
  3   nostate, stateform, hasstate: no state, a broken one, or one is there
  4   keeperfault: STATE can't be read or written, or another run holds it
  5   linkfault: that server gave no reply
  6   inputfault, inputlong: the text can't be read, or has over 8,388,608 bytes
  7   outputfault: the line couldn't be written; what was asked is done
  8   refused, stale, form, echo, version, manifest, count, tagsum: a reply fails
      its check, and nothing of it is believed
  9   unconfirmed, diverged: the servers say something else of an update
  10  unfinished: an update is pending; resume finishes it
  11  serialend: no serial is left
  12  nomemory
  13  seed: no random bytes could be read
  16  epochend: no epoch of keys is left

  --help     writes this text
  --version  writes the version
";

/// What `--version` writes.
pub const VERSION: &str = "dory 0.3.0
";
