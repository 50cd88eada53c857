//! Texts that another program made of the same seeds: its generator is held against the published words of PCG, and its moves
//! against the published counts of moves.

/// A seed, a count, and the text.
pub const TEXTS: &[(u64, u32, &str)] = &[
    // Mate after 22 plies, and a second game.
    (
        25,
        2,
        "[Event \"gen 1\"]\n[Result \"0-1\"]\n[Termination \"normal\"]\n\ne2e4 f7f5 b2b3 h7h6 Ng1h3 g7g5 Nh3f4 Ke8f7 Nf4h5 d7d5 Ke1e2 c7c6 Ke2d3 d5d4 Nh5f4 Qd8b6 Rh1g1 f5e4 Kd3c4 Qb6a6 Kc4c5 e7e5 0-1\n\n[Event \"gen 2\"]\n[Result \"0-1\"]\n[Termination \"time forfeit\"]\n\ng2g3 c7c5 c2c4 e7e5 h2h4 a7a6 Rh1h2 b7b5 Rh2h3 Bc8b7 c4b5 Bb7h1 f2f4 Bf8d6 Qd1b3 a6b5 a2a4 Qd8f6 d2d4 Nb8a6 Qb3c3 Qf6g5 g3g4 Bh1e4 a4b5 Qg5g6 Rh3h2 Be4b7 e2e4 Ra8c8 h4h5 Qg6f6 Nb1a3 Bb7c6 Na3b1 Qf6g6 Qc3b3 f7f6 Qb3d1 Bd6f8 b5b6 Bc6b7 Ra1a4 Qg6h5 Rh2f2 Bb7d5 Bf1g2 e5d4 Ng1f3 Qh5f7 e4d5 Qf7h5 Qd1d4 Qh5h3 Rf2d2 Rc8d8 Qd4c3 Qh3g3 Rd2f2 Qg3h4 Nf3h4 d7d6 Bg2f3 Na6b8 Nh4g2 Ke8f7 Ng2h4 Kf7e7 g4g5 Rd8c8 Qc3b4 h7h5 Rf2h2 Rc8d8 Rh2e2 Ke7f7 Re2c2 Ng8e7 b2b3 Rd8d7 Rc2g2 Rh8h7 Rg2f2 Rd7b7 Bf3h5 Ne7g6 Bc1d2 Rb7c7 Rf2h2 Rh7h6 Qb4e4 Rc7e7 Qe4e7 Kf7e7 Bh5d1 Nb8a6 Ra4b4 Rh6h8 Nh4f5 Ke7e8 0-1\n\n",
    ),
    (
        7,
        1,
        "[Event \"gen 1\"]\n[Result \"0-1\"]\n[Termination \"time forfeit\"]\n\ng2g4 d7d5 d2d4 b7b5 Nb1d2 h7h6 Nd2e4 e7e5 Ne4g5 Nb8a6 Ra1b1 Bc8g4 Ng5e4 b5b4 d4e5 Ng8f6 Ne4d6 Ke8d7 h2h4 Na6c5 Nd6c8 h6h5 e2e4 Nc5e4 Ng1f3 a7a6 Bc1d2 Bg4h3 Bd2b4 Bf8d6 e5d6 Bh3e6 c2c3 Kd7e8 Nf3h2 Ra8b8 Qd1b3 a6a5 Qb3a3 Rh8h7 Rb1c1 Be6g4 Bf1e2 Bg4f3 Be2d3 Bf3d1 Bd3c4 Rb8b6 Rh1g1 Rb6c6 Nh2g4 g7g6 Bc4b3 Bd1c2 Rg1g2 Ne4c3 f2f4 a5b4 Qa3a4 Nf6g8 Nc8b6 h5g4 Nb6c8 d5d4 Bb3f7 Ke8f7 h4h5 Kf7e8 Rg2c2 Rh7h6 Qa4a3 g4g3 Nc8a7 Nc3a2 Na7c8 Ng8f6 Rc1a1 Rh6h8 Qa3b4 Nf6g4 Qb4d4 Qd8d6 Qd4d1 Rc6a6 Qd1e2 Ke8d7 Ra1c1 Rh8f8 Qe2d1 Qd6d1 Rc1d1 Ra6d6 Rc2g2 Rf8d8 Ke1f1 Kd7e6 Rg2c2 Na2c1 Rc2c4 g3g2 0-1\n\n",
    ),
    // Castling on the king's side.
    (
        10,
        1,
        "[Event \"gen 1\"]\n[Result \"0-1\"]\n[Termination \"time forfeit\"]\n\ne2e4 f7f6 f2f3 g7g5 b2b3 a7a5 Bc1b2 c7c6 Qd1c1 e7e5 Ke1d1 Ng8h6 Kd1e2 b7b5 Qc1d1 Ra8a7 h2h4 Nh6f5 Ke2e1 Bf8c5 Bb2c3 Nf5e3 d2e3 O-O f3f4 b5b4 Qd1d5 c6d5 Ke1e2 Kg8g7 h4h5 Bc8b7 Rh1h2 Ra7a8 h5h6 Kg7g8 Nb1a3 Kg8f7 Ra1e1 f6f5 f4e5 d5e4 Ke2f2 Qd8e7 Ng1f3 Nb8c6 Bc3d4 Ra8c8 Bf1e2 Nc6e5 Rh2h3 a5a4 Be2d1 Rf8e8 Bd1e2 Rc8b8 Rh3h4 f5f4 Nf3d2 Ne5g4 Be2g4 Bc5b6 Bg4d1 Re8f8 Bd1g4 Qe7e8 Re1c1 Bb6a7 Rc1d1 Rf8g8 Bg4f3 Rg8g7 Bf3e2 a4b3 c2c4 Qe8e5 Rd1a1 Qe5e6 Be2d3 Qe6g6 Na3b5 b3b2 Kf2e1 Rb8a8 e3f4 Ba7d4 Nb5a3 e4e3 Nd2b1 Bb7e4 Nb1c3 Be4f3 Ra1d1 b4a3 Nc3b1 Ra8a5 Rd1d2 d7d6 Bd3e4 e3e2 0-1\n\n",
    ),
    // Castling on the queen's side.
    (
        105,
        1,
        "[Event \"gen 1\"]\n[Result \"0-1\"]\n[Termination \"time forfeit\"]\n\ne2e4 b7b6 Qd1h5 h7h6 Ng1e2 Bc8b7 e4e5 Bb7d5 b2b3 Qd8c8 Qh5h3 Qc8d8 Qh3h5 c7c6 f2f3 Bd5f3 g2f3 g7g6 Bc1a3 Nb8a6 Qh5h4 e7e6 Ne2g3 Qd8g5 Bf1h3 O-O-O Bh3f5 Rh8h7 Ng3f1 b6b5 Bf5e6 Na6c7 f3f4 Rh7g7 Be6f7 Nc7d5 Nf1g3 Qg5h5 Bf7e6 Ng8f6 Ng3f5 Rd8e8 h2h3 Qh5e2 Ke1e2 Nd5b4 Qh4f6 d7e6 c2c4 c6c5 Nb1c3 Kc8b7 Qf6g7 Kb7a6 h3h4 Nb4a2 Ba3c1 b5b4 Rh1g1 Ka6b6 Ke2e1 Re8a8 Ke1e2 Na2c3 Ke2f3 Ra8b8 Qg7g6 h6h5 Nf5g7 a7a6 Qg6b1 Nc3a2 Rg1g5 Rb8c8 d2d4 Rc8d8 Qb1f5 Rd8d6 Qf5h3 Rd6d7 Rg5g6 Kb6a5 f4f5 Bf8e7 Qh3g4 Rd7b7 Rg6f6 c5d4 Bc1f4 Be7d8 Bf4h2 Bd8f6 Qg4f4 Bf6h4 Ra1e1 Bh4g5 Re1e4 Rb7f7 Ng7e6 Rf7f5 0-1\n\n",
    ),
    // Promotion.
    (
        1,
        1,
        "[Event \"gen 1\"]\n[Result \"0-1\"]\n[Termination \"time forfeit\"]\n\nf2f3 h7h5 Nb1a3 f7f5 c2c4 d7d5 Ra1b1 Ke8f7 h2h3 g7g5 b2b4 Nb8d7 b4b5 Nd7c5 e2e3 Qd8e8 g2g3 Rh8h6 Bf1e2 Nc5e6 c4d5 Ne6d8 Be2c4 Rh6e6 d5e6 Bc8e6 Rb1b3 Ra8b8 d2d4 f5f4 g3g4 f4e3 b5b6 e3e2 Rb3d3 e2d1=R Ke1f2 Rd1d2 Bc1d2 Qe8d7 Ng1e2 Ng8f6 Rh1f1 Qd7d4 Ne2d4 Bf8h6 Rf1g1 Nf6h7 Na3b5 a7a5 g4h5 Kf7f6 Bd2f4 c7c5 Rd3e3 Be6c4 Rg1a1 Nd8e6 a2a4 Rb8g8 Bf4g5 Kf6f7 Nd4c2 Bh6f8 Nb5d6 e7d6 Bg5e7 Rg8h8 Ra1h1 Ne6g7 Nc2a3 Rh8g8 Re3e1 Bc4a2 Re1e3 Ba2b1 Na3c4 Ng7h5 Rh1g1 Rg8g2 Kf2f1 Rg2f2 Kf1e1 Nh5g3 Rg1g2 Bb1a2 Ke1f2 Ng3e2 Rg2g5 Ne2f4 Rg5g4 Nf4d5 Re3b3 Nd5c3 Kf2g3 Nc3b1 Rb3e3 Nb1c3 Be7f6 Ba2b3 0-1\n\n",
    ),
];
