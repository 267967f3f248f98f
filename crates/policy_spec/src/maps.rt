// Natural numbers as sets of bits. The definitions are in specs/; there is no code.
