// What every floor stands on: a choice by a test, bits of a number, bytes of a text, and cases to argue by. Definitions and laws, and no code.
#![tactic(auto)]
