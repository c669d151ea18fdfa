//! What is said of each code.

/// The entries of all codes, with a bar between two. The first line of an entry is its title, which
/// starts with the code; the lines below are the columns of that code on the page of errors.
pub const TABLE: &str = "\
N1 TraceFull
  Node error
  Affects: every call except readers (`list`, `report`, `rights`, `spent`,
    `hits`)
  Cause: the node has accepted as many calls as its call limit
  Fix: start a new run with a greater limit (`--no-cap`): a limit is for the
    node's whole life. Readers and rejected calls don't count
|N2 BadName
  Node error
  Affects: `set`, `remove`, `load`, `pass`, `shift`, `grant`
  Cause: the name isn't 1 to 128 bytes of ASCII letters, digits, `_`, `-`,
    `.` and `:`
  Fix: use only these; in a FAILPOINTS string, leave no space before the
    `=`
|N3 BadActions
  Node error
  Affects: `set`, `load`
  Cause: the action string or FAILPOINTS string is wrong; its own error
    follows
  Fix: see the code that follows: A for an action string, S for a FAILPOINTS
    string
|N4 TooManyPoints
  Node error
  Affects: `set`, `remove`, `load`, `deliver`
  Cause: the node would hold more than 256 names; removed names count
    permanently
  Fix: reuse a removed name, or start a new run
|N5 ClockFull
  Node error
  Affects: `set`, `remove`, `load`
  Cause: the clock would pass 2^64 - 1
  Fix: start a new run: only a forged or corrupt message can bring a clock
    that far
|N6 NotSet
  Node error
  Affects: `shift`, `grant`
  Cause: the point isn't set at this node
  Fix: set it here, or wait for a message from a node that knows it
|N7 NoSuchTerm
  Node error
  Affects: `shift`, `grant`
  Cause: the point has no term with this number; terms count from 0
  Fix: use the number of one of its terms: `list` shows the action string
|N8 NotCounted
  Node error
  Affects: `shift`, `grant`
  Cause: the term has no count, so it needs no rights
  Fix: use a counted term, such as the first one of `5*panic->off`
|N9 BadNode
  Node error
  Affects: `shift`, `emit`
  Cause: the cluster has no such node, or it is this node
  Fix: use the number of another node; nodes count from 0
|N10 ZeroAmount
  Node error
  Affects: `shift`, `grant`
  Cause: the amount is 0
  Fix: use at least 1
|N11 TooFewRights have=
  Node error
  Affects: `shift`
  Cause: this node holds only so many rights
  Fix: transfer at most that many, have some transferred here, or grant some
    first
|N12 CellFull
  Node error
  Affects: `shift`, `grant`
  Cause: the total that was transferred to that node, or that this node
    granted itself, would pass 2^64 - 1
  Fix: set the point again: a new version starts at zero
|N14 BadWords need=
  Node error
  Affects: `pass`; also any other call that is given random draws
  Cause: an evaluation takes one random draw for each term with a chance
    below 100%, and no other call takes any
  Fix: give exactly that many, each a number below 2^32
|N16 BadMessage
  Node error
  Affects: `deliver`
  Cause: the bytes aren't a message of this cluster; the message's own error
    follows
  Fix: see the W code that follows
|N17 NotForMe
  Node error
  Affects: `deliver`
  Cause: the message is for another node
  Fix: deliver it to the node that it was made for
|N18 OwnAhead
  Node error
  Affects: `deliver`
  Cause: the message knows more about this node than the node itself: it
    restarted without its journal, a second process runs under its number, or
    the message is forged
  Fix: end the other process; restart this one with its journal, or under a
    number that was never used (docs/how-to/operate.md)
|N19 AckAhead
  Node error
  Affects: `deliver`
  Cause: the message acknowledges a version of this node that doesn't exist
    yet
  Fix: as for N18: restart with the journal, or use a number that was never
    used
|N20 Overspent
  Node error
  Affects: `deliver`
  Cause: accepting this message would show a term executed more often than
    its count plus all known grants (only names in the message are checked)
  Fix: find the node that restarted under an old number without its journal,
    or the source of forged messages
|N21 BadConfig
  Node error
  Affects: creating a node
  Cause: the cluster hasn't 1 to 32 nodes, the node number isn't below that,
    or the call limit is above 2^56 - 1
  Fix: use 1 to 32 nodes, a node number from 0, and a smaller limit
|N22 OutOfMemory
  Node error
  Affects: every call that allocates
  Cause: an allocation failed
  Fix: repeat the call
|N23 Differs index=
  Node error
  Affects: creating a node from recorded calls
  Cause: replaying the recorded calls, this one (counted from 0) is rejected
    or has another result
  Fix: use the node's own journal, unchanged: an edited or missing call
    can't be repaired
|NoNode
  Cluster error
  Affects: every call; in a script every question too
  Cause: the cluster has no node with this number
  Fix: use the number of one of its nodes; nodes count from 0
|NoMessage
  Cluster error
  Affects: `deliver`
  Cause: no message has this number
  Fix: count the accepted `emit` lines, from 0
|V1 BindFailed
  Served node error
  Cause: the port can't be listened on: it is in use or not permitted, the
    address isn't this machine's, or no descriptors are left
  Fix: choose another `--port`, or 0 to let the system pick
|V2 AcceptFailed
  Served node error
  Cause: the system provides no sockets or no random keys. A client that
    finds no descriptor waits instead
  Fix: raise the limit of open descriptors: one for each client served at
    once, and about ten more
|V3 OutOfMemory
  Served node error
  Cause: an allocation of the service failed. If it fails for one client,
    that client is answered 503 or its connection is closed, and the service
    continues
  Fix: give the process more memory
|V4 BadPart
  Served node error
  Cause: the file of `--record` isn't this node's journal: it can't be
    opened or read, its first line names another node, call limit or run, or a
    call doesn't replay. It is unchanged
  Fix: check the path and permissions; use the node's own journal, or a new
    file for a number that was never used
|V5 PartInUse
  Served node error
  Cause: another process has the file of `--record` open. It is unchanged
  Fix: end that process, and give each node a journal of its own
|V6 NotRecorded
  Served node error
  Cause: the journal can't be started, or the first points couldn't be
    written to it
  Fix: free disk space or fix permissions, then restart the node
|V7 BadKey
  Served node error
  Cause: the file of `--key-file` can't be read, has fewer than 32 or more
    than 1,024 bytes, or its mode lets others use it
  Fix: `chmod 600` it, or copy the cluster's key; create one by `(umask 077;
    head -c 32 /dev/urandom >FILE)`, the same on each machine
|A1 TooLong
  Action string error
  Cause: the string has more than 1,024 bytes
  Fix: shorten it: spaces and arguments count
|A2 TooManyTerms
  Action string error
  Cause: the string has more than 16 terms
  Fix: use at most 16; a `->` in an argument separates terms too
|A3 Unclosed term=
  Action string error
  Cause: the term has a `(` and doesn't end with `)`
  Fix: close the argument, such as `print(hi)`; it can't contain `->`
|A4 BadPercent term=
  Action string error
  Cause: the chance before the first `%` isn't a number from 0 to 100 with
    at most 4 decimals
  Fix: write it like `50%` or `0.5%`
|A5 BadCount term=
  Action string error
  Cause: the count before the first `*` isn't a whole number of at most 2^64
    - 1
  Fix: write it like `5*`
|A6 NoTask term=
  Action string error
  Cause: the action is missing
  Fix: write one of `off`, `return`, `sleep`, `panic`, `print`, `pause`,
    `yield` and `delay`; don't start or end with `->`
|A7 UnknownTask term=
  Action string error
  Cause: the action isn't one of `off`, `return`, `sleep`, `panic`, `print`,
    `pause`, `yield` and `delay`
  Fix: write one of these, in lower case, with no space between chance,
    count and action
|A8 NeedsTime term=
  Action string error
  Cause: `sleep` or `delay` has no argument
  Fix: give milliseconds, such as `sleep(100)`
|A9 BadTime term=
  Action string error
  Cause: the argument of `sleep` or `delay` isn't a whole number of
    milliseconds of at most 2^64 - 1
  Fix: write it like `sleep(100)`, without a unit
|A10 BadByte offset=
  Action string error
  Cause: the string has a control character or a `;`
  Fix: remove it; a body that ends with a newline has one (`curl --data`
    drops it, `--data-binary` doesn't)
|A11 OutOfMemory
  Action string error
  Cause: an allocation failed
  Fix: try again
|S1 TooLong
  FAILPOINTS string error
  Cause: the string has more than 65,536 bytes
  Fix: set the points in several calls
|S2 NoEquals entry=
  FAILPOINTS string error
  Cause: the entry has no `=`
  Fix: write entries as `<name>=<actions>`, separated by `;`
|S3 BadName entry=
  FAILPOINTS string error
  Cause: the text before the first `=` isn't a name
  Fix: use 1 to 128 ASCII letters, digits, `_`, `-`, `.` and `:`, with no
    space before the `=`
|S4 BadActions entry=
  FAILPOINTS string error
  Cause: the action string after the `=` is wrong; its own error follows,
    with offsets counted from there
  Fix: see the A code that follows
|S5 OutOfMemory
  FAILPOINTS string error
  Cause: an allocation failed
  Fix: try again
|W1 Magic offset=
  Message error
  Cause: the bytes start with neither `FPG1` nor `FPG2`
  Fix: deliver a message of a node, from its first byte
|W2 Short offset=
  Message error
  Cause: the message ends before the end of this field
  Fix: deliver it whole: its end is missing
|W3 Long offset=
  Message error
  Cause: there are bytes after the last name
  Fix: deliver one message at a time, with nothing after it
|W4 BadNode offset=
  Message error
  Cause: no node has this number, or something goes from a node to itself
  Fix: deliver it in the cluster that it was made in: check `--nodes`
|W5 NameOrder offset=
  Message error
  Cause: the name isn't above the one before it
  Fix: the message is corrupt: request a new one from its sender (failreg
    never produces this)
|W6 BadName offset=
  Message error
  Cause: these bytes aren't a name
  Fix: the message is corrupt: request a new one from its sender (failreg
    never produces this)
|W7 BadBody offset=
  Message error
  Cause: the field that says whether the point is set or removed is neither
  Fix: the message is corrupt: request a new one from its sender (failreg
    never produces this)
|W8 NotCanonical offset=
  Message error
  Cause: this isn't a canonical action string
  Fix: the message is corrupt: request a new one from its sender (failreg
    never produces this)
|W9 CellOrder offset=
  Message error
  Cause: the cell isn't above the one before it
  Fix: the message is corrupt: request a new one from its sender (failreg
    never produces this)
|W10 ZeroCell offset=
  Message error
  Cause: the number is 0
  Fix: the message is corrupt: request a new one from its sender (failreg
    never produces this)
|W11 BadTerm offset=
  Message error
  Cause: the point has no counted term with this number
  Fix: the message is corrupt: request a new one from its sender (failreg
    never produces this)
|W12 TooBig offset=
  Message error
  Cause: the message has more than 67,108,864 bytes, which is the offset
  Fix: the message is corrupt: request a new one from its sender (failreg
    never produces this)
|W13 OutOfMemory
  Message error
  Cause: an allocation failed
  Fix: deliver it again
|W14 NoGrant offset=
  Message error
  Cause: the message starts with `FPG2`, for grants, and has none
  Fix: the message is corrupt: request a new one from its sender (failreg
    never produces this)
|P1 TooLong
  Script or recording error
  Cause: the script has more than 16,777,216 bytes
  Written: nothing
  Fix: shorten it: comments and empty lines count
|P2 ReadFailed
  Script or recording error
  Cause: the script or recording can't be read
  Written: nothing
  Fix: check the path and permissions
|P3 WriteFailed
  Script or recording error
  Cause: the output can't be written or flushed, or the recording can't be
    written
  Written: a prefix of them
  Fix: check whether the disk is full or the reader has exited; `--record`
    overwrites an existing file only with `--force`
|P4 OutOfMemory
  Script or recording error
  Cause: an allocation failed
  Written: nothing
  Fix: give the process more memory
|P5 BadLine line=
  Script or recording error
  Cause: a line of a script of `threads`, of a recording or of a journal
    can't be read or is out of place. Lines count from 1, skipped ones too; if
    the seed is missing, it is the line after the last
  Written: nothing
  Fix: correct the line: `failreg threads --help` has each form; pass
    recordings and journals unchanged
|P6 OtherDrill file=
  Script or recording error
  Cause: a journal has another run ID or another number of nodes than the
    first. It is the first such file, counted from 1
  Written: nothing
  Fix: pass the journals of one run: standard error names the file
|P7 SamePart node=
  Script or recording error
  Cause: two files are journals of this node
  Written: nothing
  Fix: pass one journal of each node
|P8 NoPart node=
  Script or recording error
  Cause: no file is a journal of this node
  Written: nothing
  Fix: pass one journal of each node, even of one that did nothing
|X1 BadConfig
  Audit error
  Cause: the cluster hasn't 1 to 32 nodes, or there isn't one call log for
    each
  Fix: pass the call logs in the order of the nodes, an empty one for a node
    that did nothing
|X2 WrongReply node= index=
  Audit error
  Cause: replaying the node's calls gives a different result at this entry
    (counted from 0), the first one of the lowest node
  Fix: pass the node's own call log: this one was edited, or isn't one
    node's from its start
|X3 Stuck node= index=
  Audit error
  Cause: the recorded calls can't be ordered: this entry delivers a message
    that no earlier entry sent
  Fix: pass all journals of one run; messages from outside the run fail too
|X4 ReceiptDiffers
  Audit error
  Cause: a receipt names no entry, or differs from its entry
  Fix: check the caller: it got another response than the node recorded
|X5 ReceiptTwice
  Audit error
  Cause: an entry has two receipts
  Fix: pass each receipt once
|X6 ReceiptMissing
  Audit error
  Cause: an entry has no receipt
  Fix: pass all lists, also that of the calls before the workers
|X7 OutOfMemory
  Audit error
  Cause: an allocation failed
  Fix: audit again
|X8 OutOfOrder list= place=
  Audit error
  Cause: the receipt at this place of this list (both counted from 0) isn't
    of a later entry than an earlier one of the same node
  Fix: pass each caller's receipts as a list of their own; otherwise the
    caller was served out of its order
|B1 TooFewRights have=
  Counter error
  Cause: the node holds only so many rights
  Fix: ask for at most that many
|B2 CellFull
  Counter error
  Cause: the number would pass 2^64 - 1
  Fix: start another budget
|B3 ZeroAmount
  Counter error
  Cause: the amount is 0
  Fix: use at least 1
|B4 SameNode
  Counter error
  Cause: rights would go from a node to itself
  Fix: use another node
|B5 OutOfMemory
  Counter error
  Cause: an allocation failed
  Fix: try again
";
