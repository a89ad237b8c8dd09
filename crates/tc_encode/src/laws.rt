// Laws of spelling and of decoding.
ghost use Rattle.tc_encode.specs.DecodeLaws.{DecodeLaws, SpellingLaws};

/// Laws of encoding: no bytes encode two instructions, and no instruction's encoding is a proper
/// prefix of another's.
pub fn spelling_laws()
    ensures { SpellingLaws }
{}

/// Laws of `decode`: an instruction results exactly if the bytes begin with its encoding, whatever
/// follows. The errors `Short` and `NotListed` are exact too.
pub fn decoding_laws()
    ensures { DecodeLaws }
{}
