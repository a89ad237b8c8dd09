// Cases of `ship`: sources to an image and its certificate, and the files after a failure.
use crate::stage::play;
use std::test::Fail;

const CASES: &str = r#"
# A source that breaks a rule in its first line.
text NO_SECTION
    nop

case an image is shipped with its certificate
put p BOARD
put l CALLER_LAYOUT
put s CALLER_SOURCE
run done ship p l e c s
    certified 1 of 2 areas
holds e CALLER
holds c CALLER_CERT

# The function that the first source calls stands in the second.
text MAIN
    .section text
    .global main
    main: call f
    j .+0
text FUNCTION
    .section text
    .global f
    f: ret16
case sources are linked in their order
put p BOARD
put l CALLER_LAYOUT
put s MAIN
put t FUNCTION
run done ship p l e c s t
    certified 1 of 2 areas
holds e CALLER
holds c CALLER_CERT

case the function is missing
put p BOARD
put l CALLER_LAYOUT
put s MAIN
run bad-input ship p l e c s
    bad link 2 name f
none e
none c

case a source is given twice
put p BOARD
put l CALLER_LAYOUT
put s CALLER_SOURCE
run bad-input ship p l e c s s
    bad link 1 name main
none e
none c

case words of no form are not shipped
put p BOARD
put l CALLER_LAYOUT
put s CALLER_SOURCE
run bad-words ship p l e c
    bad words
run bad-words ship p l x x s
    bad words
none x

# One area more is kept than the image leaves.
case an image without a certificate is not written
put p RESERVED
put l CALLER_LAYOUT
put s CALLER_SOURCE
run refused ship p l e c s
    refused K14 at 80000000 in start 80000000 prio 0 is 0
none e
none c

case the first bad input is named
text BRACE
    {
text LETTER
    x
put p BRACE
put l LETTER
put s NO_SECTION
run bad-input ship p l e c s
    bad plan 1
put p BOARD
run bad-input ship p l e c s
    bad layout 1 at 1
put l CALLER_LAYOUT
run bad-input ship p l e c s s
    bad source 8 at 0 1
put t CALLER_SOURCE
run bad-input ship p l e c t s
    bad source 8 at 1 1
none e
none c

# A missing file stops `ship` where all before it are in their forms, and isn't asked for where one isn't.
case a missing input counts in its turn
put p BOARD
put l CALLER_LAYOUT
put s NO_SECTION
run bad-input ship p l e c s none
    bad source 8 at 0 1
run fault ship p l e c none s
put s CALLER_SOURCE
run fault ship p l e c s none
none e
none c

# Three reads and two writes: the certificate is written behind the image.
case call 0 of the files fails
failing 0
put p BOARD
put l CALLER_LAYOUT
put s CALLER_SOURCE
run fault ship p l e c s
none e
none c
case call 1 of the files fails
failing 1
put p BOARD
put l CALLER_LAYOUT
put s CALLER_SOURCE
run fault ship p l e c s
none e
none c
case call 2 of the files fails
failing 2
put p BOARD
put l CALLER_LAYOUT
put s CALLER_SOURCE
run fault ship p l e c s
none e
none c
case call 3 of the files fails
failing 3
put p BOARD
put l CALLER_LAYOUT
put s CALLER_SOURCE
run fault ship p l e c s
none e
none c
case the certificate is not written
failing 4
put p BOARD
put l CALLER_LAYOUT
put s CALLER_SOURCE
run fault ship p l e c s
holds e CALLER
none c
run done ship p l e c s
    certified 1 of 2 areas
holds e CALLER
holds c CALLER_CERT
case there is no sixth call
failing 5
put p BOARD
put l CALLER_LAYOUT
put s CALLER_SOURCE
run done ship p l e c s
    certified 1 of 2 areas
holds e CALLER
holds c CALLER_CERT

case both files stand where the line is not printed
put p BOARD
put l CALLER_LAYOUT
put s CALLER_SOURCE
unprinted ship p l e c s
holds e CALLER
holds c CALLER_CERT
"#;

#[test]
fn sources_are_shipped(rt: HostRuntime) -> Result<(), Fail> {
    play(&rt, CASES)
}
