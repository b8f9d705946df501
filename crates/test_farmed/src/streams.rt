//! Small histories.

/// Eight commits, each the child of the one before.
pub(crate) const EIGHT: &[u8] = b"commit refs/heads/main
mark :1
committer T <t@e> 0 +0000
data 2
c0
commit refs/heads/main
mark :2
committer T <t@e> 1 +0000
data 2
c1
commit refs/heads/main
mark :3
committer T <t@e> 2 +0000
data 2
c2
commit refs/heads/main
mark :4
committer T <t@e> 3 +0000
data 2
c3
commit refs/heads/main
mark :5
committer T <t@e> 4 +0000
data 2
c4
commit refs/heads/main
mark :6
committer T <t@e> 5 +0000
data 2
c5
commit refs/heads/main
mark :7
committer T <t@e> 6 +0000
data 2
c6
commit refs/heads/main
mark :8
committer T <t@e> 7 +0000
data 2
c7
";

/// Two commits on one, on two branches.
pub(crate) const FORK: &[u8] = b"commit refs/heads/main
mark :1
committer T <t@e> 0 +0000
data 2
c0
commit refs/heads/main
mark :2
committer T <t@e> 1 +0000
data 2
c1
commit refs/heads/side
mark :3
committer T <t@e> 2 +0000
data 2
c2
from :1
";

/// Two commits on one, each merged into the other's branch: `main` has the second of them as its first parent,
/// `late` the first.
pub(crate) const DIAMOND: &[u8] = b"commit refs/heads/main
mark :1
committer T <t@e> 0 +0000
data 2
c0
commit refs/heads/side
mark :2
committer T <t@e> 1 +0000
data 2
c1
from :1
commit refs/heads/main
mark :3
committer T <t@e> 2 +0000
data 2
c2
from :1
commit refs/heads/main
mark :4
committer T <t@e> 3 +0000
data 2
c3
from :3
merge :2
commit refs/heads/late
mark :5
committer T <t@e> 4 +0000
data 2
c4
from :2
commit refs/heads/late
mark :6
committer T <t@e> 5 +0000
data 2
c5
from :5
merge :3
";
