//! What drivers ask over a short line of commits and a longer one, and what they are told.

/// What a driver asks over a stream, and what it is told.
#[derive(Clone, Copy)]
pub(crate) struct Talk {
    pub(crate) stream: &'static [u8],
    pub(crate) requests: &'static [u8],
    pub(crate) output: &'static [u8],
}

pub(crate) static LOG: &[u8] = b"\
git bisect start
# bad: [771edca49728d8c78d5b371976ec2debc7c92b35] c3
git bisect bad 771edca49728d8c78d5b371976ec2debc7c92b35
git bisect good 56b29d9c130e2ec4b506a48d4fe5a18d92d8d1e3
";

pub(crate) static A_DRIVER_LEADS_TWO_SEARCHES: Talk = Talk {
    stream: b"\
commit refs/heads/old
mark :1
committer T <t@e> 0 +0000
data 2
c0
commit refs/heads/main
mark :2
committer T <t@e> 1 +0000
data 2
c1
from :1
commit refs/heads/main
mark :3
committer T <t@e> 2 +0000
data 2
c2
commit refs/heads/main
mark :4
committer T <t@e> 3 +0000
data 2
c3
",
    requests: b"\
search main old
pick 1
pick 2
pick 1
post 3 0
pick 3
post 2 0
pick 2
give 2
post 1 1
pick 1
search nosuch old
bogus
pick
pick 0
post 1 256
post 1 killed
search --first-parent main old
pick 5
pick 6
post 5 1
post 6 125
pick 6
post 6 0
pick 7
pick 9
",
    output: b"\
log 1 # bad: [771edca49728d8c78d5b371976ec2debc7c92b35] c3
log 1 # good: [56b29d9c130e2ec4b506a48d4fe5a18d92d8d1e3] c0
log 1 git bisect start '771edca49728d8c78d5b371976ec2debc7c92b35' '56b29d9c130e2ec4b506a48d4fe5a18d92d8d1e3'
left 1 3 0
search 1
test 1 f570778fec974dd2b05ee862e235ff38a61118d3
test 1 2a83eb598262042db81ddad6b0c3b6c0d200c521
refused worker has a test
refused worker has no test
wait
ok
wait
refused worker has no test
log 1 # bad: [f570778fec974dd2b05ee862e235ff38a61118d3] c1
log 1 git bisect bad f570778fec974dd2b05ee862e235ff38a61118d3
log 1 # first bad commit: [f570778fec974dd2b05ee862e235ff38a61118d3] c1
left 1 1 0
answer 1 f570778fec974dd2b05ee862e235ff38a61118d3 is the first bad commit
end 1 0
ok
over
refused name refused at word 1: unknown
refused unknown request
refused wrong number of words
refused bad worker
refused worker has no test
refused worker has no test
log 2 # bad: [771edca49728d8c78d5b371976ec2debc7c92b35] c3
log 2 # good: [56b29d9c130e2ec4b506a48d4fe5a18d92d8d1e3] c0
log 2 git bisect start '--first-parent' '771edca49728d8c78d5b371976ec2debc7c92b35' '56b29d9c130e2ec4b506a48d4fe5a18d92d8d1e3'
left 2 3 0
search 2
test 2 f570778fec974dd2b05ee862e235ff38a61118d3
test 2 2a83eb598262042db81ddad6b0c3b6c0d200c521
log 2 # bad: [f570778fec974dd2b05ee862e235ff38a61118d3] c1
log 2 git bisect bad f570778fec974dd2b05ee862e235ff38a61118d3
log 2 # first bad commit: [f570778fec974dd2b05ee862e235ff38a61118d3] c1
left 2 1 0
answer 2 f570778fec974dd2b05ee862e235ff38a61118d3 is the first bad commit
end 2 0
needless 2 6
ok
needless 2
ok
over
refused worker has no test
over
over
",
};

pub(crate) static FIVE_SEARCHES_COME_TO_THEIR_ENDS: Talk = Talk {
    stream: b"\
commit refs/heads/old
mark :1
committer T <t@e> 0 +0000
data 2
c0
commit refs/heads/main
mark :2
committer T <t@e> 1 +0000
data 2
c1
from :1
commit refs/heads/main
mark :3
committer T <t@e> 2 +0000
data 2
c2
commit refs/heads/main
mark :4
committer T <t@e> 3 +0000
data 2
c3
",
    requests: b"\
search main old
search --skip main~1 main old
search --term-new broken --term-old fine main old
search main main
search old main
search main
search
pick 1
pick 2
pick 3
pick 4
pick 5
pick 6
pick 1024
pick 1025
pick 01
post 1 00
post 1 125
pick 1
post 2 killed
post 3 0
pick 3
give 4
pick 4
post 1 0
post 3 1
post 4 1
post 5 126
post 6 0
pick 7
post 1024 127
pick 1
",
    output: b"\
log 1 # bad: [771edca49728d8c78d5b371976ec2debc7c92b35] c3
log 1 # good: [56b29d9c130e2ec4b506a48d4fe5a18d92d8d1e3] c0
log 1 git bisect start '771edca49728d8c78d5b371976ec2debc7c92b35' '56b29d9c130e2ec4b506a48d4fe5a18d92d8d1e3'
left 1 3 0
search 1
log 2 # bad: [771edca49728d8c78d5b371976ec2debc7c92b35] c3
log 2 # good: [56b29d9c130e2ec4b506a48d4fe5a18d92d8d1e3] c0
log 2 git bisect start '771edca49728d8c78d5b371976ec2debc7c92b35' '56b29d9c130e2ec4b506a48d4fe5a18d92d8d1e3'
log 2 # skip: [2a83eb598262042db81ddad6b0c3b6c0d200c521] c2
log 2 git bisect skip 2a83eb598262042db81ddad6b0c3b6c0d200c521
left 2 3 1
search 2
log 3 # broken: [771edca49728d8c78d5b371976ec2debc7c92b35] c3
log 3 # fine: [56b29d9c130e2ec4b506a48d4fe5a18d92d8d1e3] c0
log 3 git bisect start '--term-new' 'broken' '--term-old' 'fine' '771edca49728d8c78d5b371976ec2debc7c92b35' '56b29d9c130e2ec4b506a48d4fe5a18d92d8d1e3'
left 3 3 0
search 3
log 4 # bad: [771edca49728d8c78d5b371976ec2debc7c92b35] c3
log 4 # good: [771edca49728d8c78d5b371976ec2debc7c92b35] c3
log 4 git bisect start '771edca49728d8c78d5b371976ec2debc7c92b35' '771edca49728d8c78d5b371976ec2debc7c92b35'
left 4 0 0
answer 4 771edca49728d8c78d5b371976ec2debc7c92b35 was both good and bad
end 4 5
search 4
log 5 # bad: [56b29d9c130e2ec4b506a48d4fe5a18d92d8d1e3] c0
log 5 # good: [771edca49728d8c78d5b371976ec2debc7c92b35] c3
log 5 git bisect start '56b29d9c130e2ec4b506a48d4fe5a18d92d8d1e3' '771edca49728d8c78d5b371976ec2debc7c92b35'
left 5 0 0
answer 5 Some good commits are not ancestors of the bad commit 56b29d9c130e2ec4b506a48d4fe5a18d92d8d1e3.
end 5 4
search 5
refused usage fault at word 2
refused usage fault at word 1
test 1 f570778fec974dd2b05ee862e235ff38a61118d3
test 2 f570778fec974dd2b05ee862e235ff38a61118d3
test 3 f570778fec974dd2b05ee862e235ff38a61118d3
test 1 2a83eb598262042db81ddad6b0c3b6c0d200c521
test 3 2a83eb598262042db81ddad6b0c3b6c0d200c521
wait
wait
refused bad worker
refused bad worker
refused bad outcome
log 1 # skip: [f570778fec974dd2b05ee862e235ff38a61118d3] c1
log 1 git bisect skip f570778fec974dd2b05ee862e235ff38a61118d3
left 1 3 1
ok
wait
answer 2 bisect aborted: killed on f570778fec974dd2b05ee862e235ff38a61118d3
end 2 6
ok
log 3 # fine: [f570778fec974dd2b05ee862e235ff38a61118d3] c1
log 3 git bisect fine f570778fec974dd2b05ee862e235ff38a61118d3
left 3 2 0
ok
wait
ok
test 1 2a83eb598262042db81ddad6b0c3b6c0d200c521
refused worker has no test
refused worker has no test
log 1 # bad: [2a83eb598262042db81ddad6b0c3b6c0d200c521] c2
log 1 git bisect bad 2a83eb598262042db81ddad6b0c3b6c0d200c521
log 1 # only skipped commits left to test
log 1 # possible first bad commit: [f570778fec974dd2b05ee862e235ff38a61118d3] c1
log 1 # possible first bad commit: [2a83eb598262042db81ddad6b0c3b6c0d200c521] c2
left 1 2 1
answer 1 There are only 'skip'ped commits left to test.
answer 1 The first bad commit could be any of:
answer 1 f570778fec974dd2b05ee862e235ff38a61118d3
answer 1 2a83eb598262042db81ddad6b0c3b6c0d200c521
answer 1 We cannot bisect more!
end 1 2
ok
answer 3 bisect aborted: exit 126 on 2a83eb598262042db81ddad6b0c3b6c0d200c521
end 3 6
ok
refused worker has no test
over
refused worker has no test
over
",
};

pub(crate) static WORDS_ARE_READ_AS_THOSE_OF_NEXT: Talk = Talk {
    stream: b"\
commit refs/heads/old
mark :1
committer T <t@e> 0 +0000
data 2
c0
commit refs/heads/main
mark :2
committer T <t@e> 1 +0000
data 2
c1
from :1
commit refs/heads/main
mark :3
committer T <t@e> 2 +0000
data 2
c2
commit refs/heads/main
mark :4
committer T <t@e> 3 +0000
data 2
c3
",
    requests: b"\
words --skip main~1
words --lenient-exit
search nosuch old
search main old
words a b c
words
words --term-new broken
search --term-old fine main old
words
search --lenient-exit --lenient-exit main old
search --workers 3 --lenient-exit main old
search --skip --lenient-exit main old
search main --lenient-exit old --skip
search main  old
search main old 
wanted F570778FEC974DD2B05EE862E235FF38A61118D3
wanted 56b29d9c130e2ec4b506a48d4fe5a18d92d8d1e3
pick 9
pick 8
post 9 127
wanted 2a83eb598262042db81ddad6b0c3b6c0d200c521
pick 7
post 8 126
pick 6
give 7
pick 4
certificate 1
certificate 2
certificate 3
certificate 0
certificate x
",
    output: b"\
ok
ok
refused name refused at word 4: unknown
log 1 # bad: [771edca49728d8c78d5b371976ec2debc7c92b35] c3
log 1 # good: [56b29d9c130e2ec4b506a48d4fe5a18d92d8d1e3] c0
log 1 git bisect start '771edca49728d8c78d5b371976ec2debc7c92b35' '56b29d9c130e2ec4b506a48d4fe5a18d92d8d1e3'
log 1 # skip: [2a83eb598262042db81ddad6b0c3b6c0d200c521] c2
log 1 git bisect skip 2a83eb598262042db81ddad6b0c3b6c0d200c521
left 1 3 1
search 1
ok
ok
ok
log 2 # broken: [771edca49728d8c78d5b371976ec2debc7c92b35] c3
log 2 # fine: [56b29d9c130e2ec4b506a48d4fe5a18d92d8d1e3] c0
log 2 git bisect start '--term-new' 'broken' '--term-old' 'fine' '771edca49728d8c78d5b371976ec2debc7c92b35' '56b29d9c130e2ec4b506a48d4fe5a18d92d8d1e3'
left 2 3 0
search 2
ok
refused usage fault at word 2
refused usage fault at word 1
refused name refused at word 2: unknown
refused usage fault at word 5
refused name refused at word 2: bad form
refused name refused at word 3: bad form
wanted 1 2
wanted
test 1 f570778fec974dd2b05ee862e235ff38a61118d3
test 2 f570778fec974dd2b05ee862e235ff38a61118d3
log 1 # bad: [f570778fec974dd2b05ee862e235ff38a61118d3] c1
log 1 git bisect bad f570778fec974dd2b05ee862e235ff38a61118d3
log 1 # first bad commit: [f570778fec974dd2b05ee862e235ff38a61118d3] c1
left 1 1 0
answer 1 f570778fec974dd2b05ee862e235ff38a61118d3 is the first bad commit
end 1 0
ok
wanted 2
test 2 2a83eb598262042db81ddad6b0c3b6c0d200c521
answer 2 bisect aborted: exit 126 on f570778fec974dd2b05ee862e235ff38a61118d3
end 2 6
needless 2 7
ok
over
needless 2
ok
over
certificate 1 certificate 1
certificate 1 bad f570778fec974dd2b05ee862e235ff38a61118d3
certificate 1 good 56b29d9c130e2ec4b506a48d4fe5a18d92d8d1e3
certificate 1 end
ok
refused no certificate
refused no such search
refused bad search
refused bad search
",
};

pub(crate) static WHAT_IS_KNOWN_IS_LEARNED: Talk = Talk {
    stream: b"\
commit refs/heads/old
mark :1
committer T <t@e> 0 +0000
data 2
c0
commit refs/heads/main
mark :2
committer T <t@e> 1 +0000
data 2
c1
from :1
commit refs/heads/main
mark :3
committer T <t@e> 2 +0000
data 2
c2
commit refs/heads/main
mark :4
committer T <t@e> 3 +0000
data 2
c3
",
    requests: b"\
search main old
search main old
learn 1 2a83eb598262042db81ddad6b0c3b6c0d200c521 0
learn 1 2a83eb598262042db81ddad6b0c3b6c0d200c521 1
learn 2 0000000000000000000000000000000000000000 0
pick 1
pick 2
pick 3
learn 1 f570778fec974dd2b05ee862e235ff38a61118d3 0
learn 2 2a83eb598262042db81ddad6b0c3b6c0d200c521 0
learn 3 f570778fec974dd2b05ee862e235ff38a61118d3 300
learn 2 nosuch 300
learn 2 f570778fec974dd2b05ee862e235ff38a61118d3 300
learn 2 771edca49728d8c78d5b371976ec2debc7c92b35 127
learn 1 f570778fec974dd2b05ee862e235ff38a61118d3 0
learn 65 f570778fec974dd2b05ee862e235ff38a61118d3 0
post 1 0
post 2 1
post 3 1
give 1
certificate 1
certificate 2
wanted f570778fec974dd2b05ee862e235ff38a61118d3
pick 4
",
    output: b"\
log 1 # bad: [771edca49728d8c78d5b371976ec2debc7c92b35] c3
log 1 # good: [56b29d9c130e2ec4b506a48d4fe5a18d92d8d1e3] c0
log 1 git bisect start '771edca49728d8c78d5b371976ec2debc7c92b35' '56b29d9c130e2ec4b506a48d4fe5a18d92d8d1e3'
left 1 3 0
search 1
log 2 # bad: [771edca49728d8c78d5b371976ec2debc7c92b35] c3
log 2 # good: [56b29d9c130e2ec4b506a48d4fe5a18d92d8d1e3] c0
log 2 git bisect start '771edca49728d8c78d5b371976ec2debc7c92b35' '56b29d9c130e2ec4b506a48d4fe5a18d92d8d1e3'
left 2 3 0
search 2
ok
refused has an outcome
refused no such commit
test 1 f570778fec974dd2b05ee862e235ff38a61118d3
test 2 f570778fec974dd2b05ee862e235ff38a61118d3
test 2 2a83eb598262042db81ddad6b0c3b6c0d200c521
refused is under test
refused is under test
refused no such search
refused no such commit
refused bad outcome
ok
refused is under test
refused bad search
log 1 # good: [f570778fec974dd2b05ee862e235ff38a61118d3] c1
log 1 git bisect good f570778fec974dd2b05ee862e235ff38a61118d3
log 1 # good: [2a83eb598262042db81ddad6b0c3b6c0d200c521] c2
log 1 git bisect good 2a83eb598262042db81ddad6b0c3b6c0d200c521
log 1 # first bad commit: [771edca49728d8c78d5b371976ec2debc7c92b35] c3
left 1 1 0
answer 1 771edca49728d8c78d5b371976ec2debc7c92b35 is the first bad commit
end 1 0
ok
log 2 # bad: [f570778fec974dd2b05ee862e235ff38a61118d3] c1
log 2 git bisect bad f570778fec974dd2b05ee862e235ff38a61118d3
log 2 # first bad commit: [f570778fec974dd2b05ee862e235ff38a61118d3] c1
left 2 1 0
answer 2 f570778fec974dd2b05ee862e235ff38a61118d3 is the first bad commit
end 2 0
needless 2 3
ok
needless 2
ok
refused worker has no test
certificate 1 certificate 1
certificate 1 bad 771edca49728d8c78d5b371976ec2debc7c92b35
certificate 1 good 56b29d9c130e2ec4b506a48d4fe5a18d92d8d1e3
certificate 1 good f570778fec974dd2b05ee862e235ff38a61118d3
certificate 1 good 2a83eb598262042db81ddad6b0c3b6c0d200c521
certificate 1 end
ok
certificate 2 certificate 1
certificate 2 bad f570778fec974dd2b05ee862e235ff38a61118d3
certificate 2 good 56b29d9c130e2ec4b506a48d4fe5a18d92d8d1e3
certificate 2 end
ok
wanted
over
",
};

pub(crate) static NEEDLESS_TESTS_ARE_NAMED: Talk = Talk {
    stream: b"\
commit refs/heads/old
mark :1
committer T <t@e> 1 +0000
data 2
n1
commit refs/heads/main
mark :2
committer T <t@e> 2 +0000
data 2
n2
from :1
commit refs/heads/main
mark :3
committer T <t@e> 3 +0000
data 2
n3
commit refs/heads/main
mark :4
committer T <t@e> 4 +0000
data 2
n4
commit refs/heads/main
mark :5
committer T <t@e> 5 +0000
data 2
n5
commit refs/heads/main
mark :6
committer T <t@e> 6 +0000
data 2
n6
commit refs/heads/main
mark :7
committer T <t@e> 7 +0000
data 2
n7
commit refs/heads/main
mark :8
committer T <t@e> 8 +0000
data 2
n8
commit refs/heads/main
mark :9
committer T <t@e> 9 +0000
data 2
n9
commit refs/heads/main
mark :10
committer T <t@e> 10 +0000
data 3
n10
commit refs/heads/main
mark :11
committer T <t@e> 11 +0000
data 3
n11
commit refs/heads/main
mark :12
committer T <t@e> 12 +0000
data 3
n12
commit refs/heads/main
mark :13
committer T <t@e> 13 +0000
data 3
n13
commit refs/heads/main
mark :14
committer T <t@e> 14 +0000
data 3
n14
commit refs/heads/main
mark :15
committer T <t@e> 15 +0000
data 3
n15
commit refs/heads/main
mark :16
committer T <t@e> 16 +0000
data 3
n16
commit refs/heads/main
mark :17
committer T <t@e> 17 +0000
data 3
n17
",
    requests: b"\
search main old
pick 30
pick 4
pick 12
pick 2
pick 7
pick 1
pick 5
post 30 1
give 12
pick 12
post 4 125
post 2 125
post 7 125
give 5
give 1
pick 6
pick 3
post 6 0
post 3 0
give 12
pick 30
pick 31
pick 32
post 31 125
post 30 125
post 32 125
pick 3
pick 6
post 3 0
post 6 0
pick 1
pick 2
",
    output: b"\
log 1 # bad: [b90f2806af07f46ebaebb5757434a13eeb92ab27] n17
log 1 # good: [d1e62bc56ebd58a94126b2be18316d54d621eb2c] n1
log 1 git bisect start 'b90f2806af07f46ebaebb5757434a13eeb92ab27' 'd1e62bc56ebd58a94126b2be18316d54d621eb2c'
left 1 16 0
search 1
test 1 a0c4371782b65999014843e0adbdfdfc12b404bf
test 1 48dc1621b0ca78ec7df369a3853fa409599e5432
test 1 db8fc14bf11d666e8c4aa33271dae5bb046d9095
test 1 de91a63f567c8d146cc05a22f5288c6d5cf8586d
test 1 d46fce05c38b9b091f257fe9e2a07212270a6a83
test 1 992f21b4e6a0a2f486587a86f5df73a1a0dac05e
test 1 2cb4cbc201645a953c72d2f01c732cd2d38ed0f2
log 1 # bad: [a0c4371782b65999014843e0adbdfdfc12b404bf] n9
log 1 git bisect bad a0c4371782b65999014843e0adbdfdfc12b404bf
left 1 8 0
needless 1 2 4 7
ok
ok
test 1 db8fc14bf11d666e8c4aa33271dae5bb046d9095
needless 1 2 7
ok
needless 1 7
ok
needless 1
ok
ok
ok
test 1 992f21b4e6a0a2f486587a86f5df73a1a0dac05e
test 1 2cb4cbc201645a953c72d2f01c732cd2d38ed0f2
ok
ok
ok
test 1 db8fc14bf11d666e8c4aa33271dae5bb046d9095
test 1 fbe45125485bbe15bc8aee6ac270c00790957158
test 1 1ca6ffcc2fce44d58d04314569a43f039337ca71
ok
log 1 # skip: [db8fc14bf11d666e8c4aa33271dae5bb046d9095] n5
log 1 git bisect skip db8fc14bf11d666e8c4aa33271dae5bb046d9095
left 1 8 1
ok
log 1 # skip: [1ca6ffcc2fce44d58d04314569a43f039337ca71] n4
log 1 git bisect skip 1ca6ffcc2fce44d58d04314569a43f039337ca71
left 1 8 2
ok
test 1 d2c2fc8c2933a51094b9a74e9da69b7d6c07f66f
wait
log 1 # good: [d2c2fc8c2933a51094b9a74e9da69b7d6c07f66f] n6
log 1 git bisect good d2c2fc8c2933a51094b9a74e9da69b7d6c07f66f
log 1 # good: [992f21b4e6a0a2f486587a86f5df73a1a0dac05e] n7
log 1 git bisect good 992f21b4e6a0a2f486587a86f5df73a1a0dac05e
log 1 # skip: [fbe45125485bbe15bc8aee6ac270c00790957158] n8
log 1 git bisect skip fbe45125485bbe15bc8aee6ac270c00790957158
log 1 # only skipped commits left to test
log 1 # possible first bad commit: [fbe45125485bbe15bc8aee6ac270c00790957158] n8
log 1 # possible first bad commit: [a0c4371782b65999014843e0adbdfdfc12b404bf] n9
left 1 2 1
answer 1 There are only 'skip'ped commits left to test.
answer 1 The first bad commit could be any of:
answer 1 fbe45125485bbe15bc8aee6ac270c00790957158
answer 1 a0c4371782b65999014843e0adbdfdfc12b404bf
answer 1 We cannot bisect more!
end 1 2
ok
refused worker has no test
over
over
",
};

pub(crate) static A_LOG_IS_GONE_ON_FROM: Talk = Talk {
    stream: b"\
commit refs/heads/old
mark :1
committer T <t@e> 0 +0000
data 2
c0
commit refs/heads/main
mark :2
committer T <t@e> 1 +0000
data 2
c1
from :1
commit refs/heads/main
mark :3
committer T <t@e> 2 +0000
data 2
c2
commit refs/heads/main
mark :4
committer T <t@e> 3 +0000
data 2
c3
",
    requests: b"\
search --replay log
search --replay nosuch
search --replay log --skip main~1
search --replay log main
search --replay bad
pick 1
pick 2
post 1 0
post 2 1
",
    output: b"\
left 1 3 0
search 1
refused no such file
log 2 # skip: [2a83eb598262042db81ddad6b0c3b6c0d200c521] c2
log 2 git bisect skip 2a83eb598262042db81ddad6b0c3b6c0d200c521
left 2 3 1
search 2
refused usage fault at word 3
refused waiting for both good and bad commits
test 1 f570778fec974dd2b05ee862e235ff38a61118d3
test 2 f570778fec974dd2b05ee862e235ff38a61118d3
log 1 # good: [f570778fec974dd2b05ee862e235ff38a61118d3] c1
log 1 git bisect good f570778fec974dd2b05ee862e235ff38a61118d3
left 1 2 0
ok
log 2 # bad: [f570778fec974dd2b05ee862e235ff38a61118d3] c1
log 2 git bisect bad f570778fec974dd2b05ee862e235ff38a61118d3
log 2 # first bad commit: [f570778fec974dd2b05ee862e235ff38a61118d3] c1
left 2 1 0
answer 2 f570778fec974dd2b05ee862e235ff38a61118d3 is the first bad commit
end 2 0
ok
",
};
