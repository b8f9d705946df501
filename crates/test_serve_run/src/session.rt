//! A session over three commits.

/// Three commits in a line, with the end of their stream.
pub(crate) const STREAM: &[u8] = b"commit refs/heads/main
mark :1
committer T <t@e> 0 +0000
data 2
c0
commit refs/heads/main
mark :2
committer T <t@e> 1 +0000
data 2
c1
commit refs/heads/main
mark :3
committer T <t@e> 2 +0000
data 2
c2
done
";

/// The first line of what they are replied.
pub(crate) const READY: &[u8] = b"ready 1 3
";

/// Requests.
pub(crate) const REQUESTS: &[u8] = b"search main main~2
pick 7
pick 8
post 7 1
pick 7
";

/// What they are replied behind the first line.
pub(crate) const REPLIES: &[u8] = b"log 1 # bad: [2a83eb598262042db81ddad6b0c3b6c0d200c521] c2
log 1 # good: [56b29d9c130e2ec4b506a48d4fe5a18d92d8d1e3] c0
log 1 git bisect start '2a83eb598262042db81ddad6b0c3b6c0d200c521' '56b29d9c130e2ec4b506a48d4fe5a18d92d8d1e3'
left 1 2 0
search 1
test 1 f570778fec974dd2b05ee862e235ff38a61118d3
wait
log 1 # bad: [f570778fec974dd2b05ee862e235ff38a61118d3] c1
log 1 git bisect bad f570778fec974dd2b05ee862e235ff38a61118d3
log 1 # first bad commit: [f570778fec974dd2b05ee862e235ff38a61118d3] c1
left 1 1 0
answer 1 f570778fec974dd2b05ee862e235ff38a61118d3 is the first bad commit
end 1 0
ok
over
";
