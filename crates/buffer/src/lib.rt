// What every writer answers and leaves in the lent buffer: specs/Buffer.antt. There is no code here.
#![tactic(auto)]
