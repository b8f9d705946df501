//! The texts of `--help` and `--version`. `main` answers these words itself: `read_words` knows neither.

/// What `--help` prints.
pub(crate) const HELP: &[u8] = b"\
farmdawn simulate [OPTION..] BAD GOOD.. PLAN < STREAM
farmdawn run [OPTION..] BAD GOOD.. -- COMMAND.. < STREAM
farmdawn next [OPTION..] BAD GOOD.. < STREAM
farmdawn simulate [OPTION..] --replay FILE PLAN < STREAM
farmdawn run [OPTION..] --replay FILE -- COMMAND.. < STREAM
farmdawn next [OPTION..] --replay FILE < STREAM
farmdawn replay --replay FILE < STREAM
farmdawn gen NUMBER COUNT
farmdawn sample [--workers N] NUMBER COUNT
farmdawn certify simulate [OPTION..] BAD GOOD.. PLAN < STREAM
farmdawn certify run [OPTION..] BAD GOOD.. -- COMMAND.. < STREAM
farmdawn check [--original-names] FILE < STREAM
farmdawn checkout run [OPTION..] BAD GOOD.. -- COMMAND.. < STREAM
farmdawn journal run [OPTION..] BAD GOOD.. -- COMMAND.. < STREAM
farmdawn many N FILE < STREAM
farmdawn serve [--original-names] < STREAM-AND-REQUESTS

simulate searches the history of a git fast-import stream for the first bad commit, as git bisect
does, and prints the log and the answer. No test is run: PLAN says how each would end. run tests
each commit by COMMAND, which gets the commit's name as its last word: status 0 is good, 1 to 124
bad, 125 skips the commit, and any other ends the search. next prints the log so far and the commit
that a search would test next. With --replay they go on from a log, and replay prints such a log in
its normal form, and the commits that it knows. gen prints a stream of COUNT commits that NUMBER
gives, and sample searches such a stream and prints a summary. certify searches as simulate and run
do, without --leg and --trace, and prints, where the first bad commit was found, a certificate in
place of log and answer: what is needed to check the answer without a test. check tells whether the
certificate in FILE holds for the history of the stream. checkout searches as run does, over a
stream that has the files, and tests each commit in a folder below bisect-trees that holds exactly
its files; COMMAND gets the folder and the commit's name as its last words. journal searches as run
does and keeps each outcome in the file bisect.journal, from which the same line goes on. many
searches as each line of FILE says, which has the words behind simulate without --workers, --leg,
--trace and --replay; N workers, 1 to 64, work for all of them. serve runs no test: behind a stream
that ends with its line done it reads requests, a line each, tells which commit a worker of yours is
to test, and takes what the test showed.

  BAD, GOOD         names of commits, as gitrevisions(7) has them: main, v1.0, main~3, 1a2b3c4
  PLAN              a letter for each commit in the order of the stream: g good, b bad, s skip,
                    a exit 128, k killed, n exit 127; commits past its end are skipped
  --first-parent    follow first parents alone
  --term-new T      the word for bad; --term-old T the word for good
  --skip REV        a commit, or a range A..B, that is not to be tested; any number of times
  --lenient-exit    take the statuses 126 and 127 of a test as bad
  --replay FILE     go on from the log in a file, as git bisect log prints it
  --workers N       test up to N commits at once, 1 to 64; log and answer are the same for every N
  --leg K           write the lines so far after every K marks; log and answer are the same
  --trace           print behind the answer what the workers did: claim, post and give
  --original-names  take the names of commits from their lines original-oid (check, serve)

The status is 0 where the first bad commit was found or the command did what it was asked, 1 where
a word is wrong, 2 where only skipped commits are left, 3 where a merge base is bad, 4 where a good
commit is no ancestor of the bad one, 5 where one commit is both, 6 where a test aborts the search,
7 to 9 where the stream or a name is refused or a limit is passed, 10 where a log is refused, 11
where a test cannot be made, 12 where the stream cannot be read, 13 where the output cannot be
written, 14 where a file cannot be read, 15 where memory runs out, 16 where there is no such file,
17 where an end is not known, 19 where the stream lacks the content of a file, 20 where a
certificate does not hold, 21 where the journal is that of another run, 22 where it cannot be read
or written, and 23 where a line of FILE is refused.
";

/// What `--version` prints.
pub(crate) const VERSION: &[u8] = b"farmdawn 0.1.0\n";
