// The law of spellings.
ghost use Rattle.depth_cert.specs.SpellingLaws.{WrittenCertsAreReadBack};

/// The round trip: the bytes written for a certificate are read back as that certificate.
pub fn cert_round_trip_law()
    ensures { WrittenCertsAreReadBack }
{}
