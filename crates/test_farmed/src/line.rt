//! Eight commits in a line, and what commands tell of them.

/// Eight commits, each the child of the one before.
pub(crate) const EIGHT: &[u8] = b"commit refs/heads/main
mark :1
committer T <t@e> 0 +0000
data 2
c0
commit refs/heads/main
mark :2
committer T <t@e> 1 +0000
data 2
c1
commit refs/heads/main
mark :3
committer T <t@e> 2 +0000
data 2
c2
commit refs/heads/main
mark :4
committer T <t@e> 3 +0000
data 2
c3
commit refs/heads/main
mark :5
committer T <t@e> 4 +0000
data 2
c4
commit refs/heads/main
mark :6
committer T <t@e> 5 +0000
data 2
c5
commit refs/heads/main
mark :7
committer T <t@e> 6 +0000
data 2
c6
commit refs/heads/main
mark :8
committer T <t@e> 7 +0000
data 2
c7
";

/// What a search over them prints where commits from the fifth on are bad.
pub(crate) const FOUND: &[u8] = b"# bad: [38d7eeaa2c641133c0a59de3e3515352366303d6] c7
# good: [56b29d9c130e2ec4b506a48d4fe5a18d92d8d1e3] c0
git bisect start '38d7eeaa2c641133c0a59de3e3515352366303d6' '56b29d9c130e2ec4b506a48d4fe5a18d92d8d1e3'
# good: [771edca49728d8c78d5b371976ec2debc7c92b35] c3
git bisect good 771edca49728d8c78d5b371976ec2debc7c92b35
# bad: [3dff7cbfbc1ec2409d1dc7dba41ba991437e56aa] c5
git bisect bad 3dff7cbfbc1ec2409d1dc7dba41ba991437e56aa
# bad: [271bb9a08b2d5aa03871aa65fdadc01c488fa408] c4
git bisect bad 271bb9a08b2d5aa03871aa65fdadc01c488fa408
# first bad commit: [271bb9a08b2d5aa03871aa65fdadc01c488fa408] c4
271bb9a08b2d5aa03871aa65fdadc01c488fa408 is the first bad commit
";

/// The certificate of that search.
pub(crate) const CERTIFICATE: &[u8] = b"certificate 1
bad 271bb9a08b2d5aa03871aa65fdadc01c488fa408
good 56b29d9c130e2ec4b506a48d4fe5a18d92d8d1e3
good 771edca49728d8c78d5b371976ec2debc7c92b35
end
";

/// What a check of it prints.
pub(crate) const HOLDS: &[u8] = b"certificate holds for 271bb9a08b2d5aa03871aa65fdadc01c488fa408\n";

/// A list of two searches.
pub(crate) const SEARCHES: &[u8] = b"main main~7 ggggbbbb
main main~7 gbbbbbbb
";

/// What they print.
pub(crate) const SEARCHED: &[u8] = b"search 1
# bad: [38d7eeaa2c641133c0a59de3e3515352366303d6] c7
# good: [56b29d9c130e2ec4b506a48d4fe5a18d92d8d1e3] c0
git bisect start '38d7eeaa2c641133c0a59de3e3515352366303d6' '56b29d9c130e2ec4b506a48d4fe5a18d92d8d1e3'
# good: [771edca49728d8c78d5b371976ec2debc7c92b35] c3
git bisect good 771edca49728d8c78d5b371976ec2debc7c92b35
# bad: [3dff7cbfbc1ec2409d1dc7dba41ba991437e56aa] c5
git bisect bad 3dff7cbfbc1ec2409d1dc7dba41ba991437e56aa
# bad: [271bb9a08b2d5aa03871aa65fdadc01c488fa408] c4
git bisect bad 271bb9a08b2d5aa03871aa65fdadc01c488fa408
# first bad commit: [271bb9a08b2d5aa03871aa65fdadc01c488fa408] c4
271bb9a08b2d5aa03871aa65fdadc01c488fa408 is the first bad commit
search 2
# bad: [38d7eeaa2c641133c0a59de3e3515352366303d6] c7
# good: [56b29d9c130e2ec4b506a48d4fe5a18d92d8d1e3] c0
git bisect start '38d7eeaa2c641133c0a59de3e3515352366303d6' '56b29d9c130e2ec4b506a48d4fe5a18d92d8d1e3'
# bad: [771edca49728d8c78d5b371976ec2debc7c92b35] c3
git bisect bad 771edca49728d8c78d5b371976ec2debc7c92b35
# bad: [f570778fec974dd2b05ee862e235ff38a61118d3] c1
git bisect bad f570778fec974dd2b05ee862e235ff38a61118d3
# first bad commit: [f570778fec974dd2b05ee862e235ff38a61118d3] c1
f570778fec974dd2b05ee862e235ff38a61118d3 is the first bad commit
";

/// What is printed where the first of them stands before one whose name is refused.
pub(crate) const SECOND_REFUSED: &[u8] = b"search 1
# bad: [38d7eeaa2c641133c0a59de3e3515352366303d6] c7
# good: [56b29d9c130e2ec4b506a48d4fe5a18d92d8d1e3] c0
git bisect start '38d7eeaa2c641133c0a59de3e3515352366303d6' '56b29d9c130e2ec4b506a48d4fe5a18d92d8d1e3'
# good: [771edca49728d8c78d5b371976ec2debc7c92b35] c3
git bisect good 771edca49728d8c78d5b371976ec2debc7c92b35
# bad: [3dff7cbfbc1ec2409d1dc7dba41ba991437e56aa] c5
git bisect bad 3dff7cbfbc1ec2409d1dc7dba41ba991437e56aa
# bad: [271bb9a08b2d5aa03871aa65fdadc01c488fa408] c4
git bisect bad 271bb9a08b2d5aa03871aa65fdadc01c488fa408
# first bad commit: [271bb9a08b2d5aa03871aa65fdadc01c488fa408] c4
271bb9a08b2d5aa03871aa65fdadc01c488fa408 is the first bad commit
search 2
name refused at word 2: unknown
";
